// Number 7 within a record: no key of its associations, INAS and SPAS, stands twice.
// A spatial key whose number is larger than that of every earlier one is new by that alone, and so is the key of the first INAS: only others are searched for.
// Where there are many of those, all keys are first put to a test that is quicker; this way then only finds which stands twice.
ghost use Rattle.std.specs.Prelude.{◌≡◌, true, false, not, [], ◌∷◌, ◌+◌, ◌*◌, ◌≤◌, length, get_or, take};
ghost use Rattle.base.specs.Check.{pass};
ghost use Rattle.base.specs.Keys.{among};
ghost use Rattle.base.specs.Verdict.{verdict_of};
ghost use Rattle.fields.specs.Table.{head_of, tuple_of};
ghost use Rattle.fields.specs.Content.{fill};
ghost use Rattle.fields.specs.declared.Format.TheVariants.{Spas};
ghost use Rattle.skeleton.specs.Place.{fields_at};
ghost use Rattle.skeleton.specs.Directory.{tag_at};
ghost use Rattle.skeleton.specs.RightFrom.{RightFrom};
ghost use Rattle.skeleton.specs.Shape.{Bounded};
ghost use Rattle.rules.specs.Tags.{INAS};
ghost use Rattle.rules.specs.ByTag.{first_tag, front, has};
ghost use Rattle.rules.specs.Kind.{tag_of};
ghost use Rattle.rules.specs.Content.{inas_format, number5};
ghost use Rattle.rules.specs.Associations.{number7};
ghost use Rattle.contents.specs.Fit.{fits, all_fit};
ghost use Rattle.contents.specs.Keys.{keys_in, seen_before, top_with, said_by, spas_from, inas_once, field_once, once_from};

use crate::earlier::{Key, fields_have, inas_key};
use crate::once::surely_once;
use crate::passed::tag_passed;
use crate::spatial::{key_number, top_with, tuples_have};
use base::Fault;
use fields::{le8, le32};
use rules::{Kind, Mode, tags};
use skeleton::directory::{Shape, tag_at};
use skeleton::place::place_at;

// Whether a key is new behind the first n fields from the entry at p on and j tuples of the SPAS b; top: the largest number of a key there.
fn is_new(
    r: &[u8],
    h: Shape,
    p: usize,
    n: usize,
    b: &[u8],
    j: usize,
    top: usize,
    x: u8,
    y: u32,
) -> bool
    requires { Bounded h × (all_fit false (fields_at r.now h p) ≡ true) × (fill (head_of Spas) (tuple_of Spas) b.now ≡ true) × (15 * j ≤ length b.now) × (top ≡ top_with 0 (seen_before r.now h p n b.now j)) }
    ensures { result ≡ not (among (x ∷ y ∷ []) (seen_before r.now h p n b.now j)) }
{
    if top < key_number(x, y) {
        return true;
    }
    if tuples_have(b, j, x, y) {
        return false;
    }
    !fields_have(r, h, p, n, Key::Spatial(x, y))
}

// The keys of the SPAS b, behind the first n fields from the entry at p on: each is new, and then the largest number of a spatial key so far; or the
// tuple whose key stands twice (7).
fn spas_once(
    r: &[u8],
    h: Shape,
    p: usize,
    n: usize,
    b: &[u8],
    largest: usize,
) -> Result<usize, usize>
    requires { Bounded h × (all_fit false (fields_at r.now h p) ≡ true) × (fill (head_of Spas) (tuple_of Spas) b.now ≡ true) × (largest ≡ top_with 0 (seen_before r.now h p n b.now 0)) }
    ensures { said_by (n + 2) result ≡ spas_from r.now h p n b.now 0 largest }
{
    let mut top = largest;
    for j in 0..b.len() / 15 {
        let x = le8(b, 15 * j);
        let y = le32(b, 15 * j + 1);
        if !is_new(r, h, p, n, b, j, top, x, y) {
            return Err(j + 1);
        }
        top = top_with(top, x, y);
    }
    Ok(top)
}

// The key of the INAS b, behind the first n fields from the entry at p on: the same, and no tuple but 0; informed: there is an INAS among those fields.
fn inas_once(
    r: &[u8],
    h: Shape,
    p: usize,
    n: usize,
    b: &[u8],
    top: usize,
    informed: bool,
) -> Result<usize, usize>
    requires { Bounded h × (all_fit false (fields_at r.now h p) ≡ true) × (fill (head_of (inas_format false b.now)) (tuple_of (inas_format false b.now)) b.now ≡ true) × (informed ≡ has INAS (take n (fields_at r.now h p))) }
    ensures { said_by (n + 2) result ≡ inas_once r.now h p n b.now top }
{
    if informed && fields_have(r, h, p, n, inas_key(b)) {
        return Err(0);
    }
    Ok(top)
}

// The keys of the field b with this tag, behind the first n fields from the entry at p on; informed: there is an INAS among those.
fn field_once(
    r: &[u8],
    h: Shape,
    p: usize,
    n: usize,
    tag: u32,
    b: &[u8],
    top: usize,
    informed: bool,
) -> Result<usize, usize>
    requires { Bounded h × (all_fit false (fields_at r.now h p) ≡ true) × (fits false (record { tag = tag; body = b.now }) ≡ true) × (top ≡ top_with 0 (seen_before r.now h p n b.now 0)) × (informed ≡ has INAS (take n (fields_at r.now h p))) }
    ensures { said_by (n + 2) result ≡ field_once r.now h p n tag b.now top }
{
    if tag == tags::INAS {
        return inas_once(r, h, p, n, b, top, informed);
    }
    if tag == tags::SPAS {
        return spas_once(r, h, p, n, b, top);
    }
    Ok(top)
}

// The keys of the field with this tag whose entry stands at q, behind the first n fields from the entry at p on, in a directory that was found right:
// where the tag is that of no association, no number of the entry is read.
fn entry_once(
    r: &[u8],
    h: Shape,
    p: usize,
    n: usize,
    q: usize,
    tag: u32,
    top: usize,
    informed: bool,
) -> Result<usize, usize>
    requires bounded { Bounded h × (all_fit false (fields_at r.now h p) ≡ true) × (all_fit false (fields_at r.now h q) ≡ true) × (top ≡ top_with 0 (keys_in (take n (fields_at r.now h p)))) × (informed ≡ has INAS (take n (fields_at r.now h p))) }
    requires right_from { RightFrom r.now h q × (get_or r.now q 0 ≡ 30 → ⊥) × (tag ≡ tag_at r.now q) }
    ensures { said_by (n + 2) result ≡ field_once r.now h p n tag (front (fields_at r.now h q)) top }
{
    if tag != tags::INAS && tag != tags::SPAS {
        return Ok(top);
    }
    match place_at(r, h, q) {
        Some(field) => field_once(
            r,
            h,
            p,
            n,
            field.tag,
            &r[field.start..field.end],
            top,
            informed,
        ),
        None => Ok(top),
    }
}

// Whether each key of the fields from the entry at p on, the second of the record, stands once; else 7.
fn keys_once(r: &[u8], h: Shape, p: usize) -> Result<(), Fault>
    requires { Bounded h × (2 ≤ p) × (all_fit false (fields_at r.now h p) ≡ true) × RightFrom r.now h p }
    ensures { result ≡ once_from r.now h p 0 }
{
    let mut q = p;
    let mut n = 0;
    let mut top = 0;
    let mut informed = false;
    while r[q] != 0x1e {
        let tag = tag_at(r, q);
        match entry_once(r, h, p, n, q, tag, top, informed) {
            Ok(t) => {
                top = t;
            }
            Err(j) => {
                return Err(Fault {
                    number: 7,
                    field: n + 2,
                    tuple: j,
                });
            }
        }
        informed = tag_passed(informed, tag, tags::INAS);
        q += 4 + h.a + h.b;
        n += 1;
    }
    Ok(())
}

// Number 7 within a record of kind k that number 5 passed, whose directory was found right and whose first field is its identifier: the second entry
// stands behind that one.
pub fn check_keys(r: &[u8], h: Shape, mode: Mode, k: Kind) -> Result<(), Fault>
    requires { Bounded h × (number5 mode k (fields_at r.now h 24) ≡ pass) × (first_tag (fields_at r.now h 24) ≡ tag_of k) × RightFrom r.now h 24 }
    ensures { result ≡ verdict_of (number7 (fields_at r.now h 24)) }
{
    let second = 28 + h.a + h.b;
    if surely_once(r, h, second) {
        return Ok(());
    }
    keys_once(r, h, second)
}
