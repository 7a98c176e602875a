// The records that the associations of one record name, INAS and SPAS: number 11.
// The map is of the file f from start on, and so is t, with n and k: a table, of which the first n entries are to be tried, or a book, whose flags are k; p is
// the place of the record at hand, and q that of the field's entry in it.
ghost use Rattle.std.specs.Prelude.{◌≡◌, true, [], ◌∷◌, ◌≤◌, length, get_or, take};
ghost use Rattle.fields.specs.Table.{head_of, tuple_of};
ghost use Rattle.fields.specs.Content.{fill, many};
ghost use Rattle.fields.specs.declared.Format.TheVariants.{InasNew, Spas};
ghost use Rattle.skeleton.specs.Place.{fields_at};
ghost use Rattle.skeleton.specs.RightFrom.{RightFrom};
ghost use Rattle.skeleton.specs.Shape.{Bounded};
ghost use Rattle.rules.specs.Associations.{inas_key, spas_marks, field_marks, marks};
ghost use Rattle.references.specs.Readable.{readable, all_readable, record_readable};
ghost use Rattle.references.specs.Named.{Says};
ghost use Rattle.references.specs.Vouched.{Aided};

use crate::vouching::exists;
use base::Fault;
use keys::look::key_at;
use rules::tags;
use skeleton::directory::{Shape, tag_at};
use skeleton::place::place_at;

// The record that the INAS b, field i, names.
fn inas_named(
    f: &[u8],
    start: usize,
    t: &mut [u32],
    n: usize,
    map: &[u8],
    p: usize,
    q: usize,
    b: &[u8],
    i: usize,
    k: &mut [u8],
) -> Result<(), Fault>
    requires { Aided f.now start t.old n map.now k.old × (fill (head_of InasNew) (tuple_of InasNew) b.now ≡ true) }
    ensures { (Says f.now start (record { key = inas_key b.now; field = i; tuple = 0 } ∷ []) result) × Aided f.now start t.new n map.now k.new }
{
    if exists(f, start, t, n, map, p, q, 0, key_at(b, 0), k) {
        return Ok(());
    }
    Err(Fault {
        number: 11,
        field: i,
        tuple: 0,
    })
}

// The records that the tuples of the SPAS b, field i, name.
fn spas_named(
    f: &[u8],
    start: usize,
    t: &mut [u32],
    n: usize,
    map: &[u8],
    p: usize,
    q: usize,
    b: &[u8],
    i: usize,
    k: &mut [u8],
) -> Result<(), Fault>
    requires { Aided f.now start t.old n map.now k.old × (length b.now ≤ 16777216) × (fill (head_of Spas) (tuple_of Spas) b.now ≡ true) }
    ensures { (Says f.now start (spas_marks i 1 (many (tuple_of Spas) b.now)) result) × Aided f.now start t.new n map.now k.new }
{
    let mut at = 0;
    let mut j = 1;
    // A `while`: a tuple of 15 bytes is read where it stands.
    while at < b.len() {
        if !exists(f, start, t, n, map, p, q, at, key_at(b, at), k) {
            return Err(Fault {
                number: 11,
                field: i,
                tuple: j,
            });
        }
        at += 15;
        j += 1;
    }
    Ok(())
}

// The records that field i with this tag names.
fn field_named(
    f: &[u8],
    start: usize,
    t: &mut [u32],
    n: usize,
    map: &[u8],
    p: usize,
    q: usize,
    tag: u32,
    b: &[u8],
    i: usize,
    k: &mut [u8],
) -> Result<(), Fault>
    requires { Aided f.now start t.old n map.now k.old × (length b.now ≤ 16777216) × (readable (record { tag = tag; body = b.now }) ≡ true) }
    ensures { (Says f.now start (field_marks i (record { tag = tag; body = b.now })) result) × Aided f.now start t.new n map.now k.new }
{
    if tag == tags::INAS {
        return inas_named(f, start, t, n, map, p, q, b, i, k);
    }
    if tag == tags::SPAS {
        return spas_named(f, start, t, n, map, p, q, b, i, k);
    }
    Ok(())
}

// The records that field i names, whose entry stands at q of a directory that was found right: where its tag is that of no association,
// no number of the entry is read.
fn entry_named(
    f: &[u8],
    start: usize,
    t: &mut [u32],
    n: usize,
    map: &[u8],
    p: usize,
    r: &[u8],
    h: Shape,
    q: usize,
    i: usize,
    k: &mut [u8],
) -> Result<(), Fault>
    requires { Aided f.now start t.old n map.now k.old × Bounded h × (length r.now ≤ 16777216) × (all_readable (fields_at r.now h q) ≡ true) × RightFrom r.now h q × (get_or r.now q 0 ≡ 30 → ⊥) }
    ensures { (Says f.now start (marks i (take 1 (fields_at r.now h q))) result) × Aided f.now start t.new n map.now k.new }
{
    let tag = tag_at(r, q);
    if tag != tags::INAS && tag != tags::SPAS {
        return Ok(());
    }
    let Some(field) = place_at(r, h, q) else {
        return Ok(());
    };
    let b = &r[field.start..field.end];
    field_named(f, start, t, n, map, p, q, field.tag, b, i, k)
}

// The records that the record r names: its first field is its identifier, which names none, and the second entry stands behind that one.
pub fn record_named(
    f: &[u8],
    start: usize,
    t: &mut [u32],
    n: usize,
    map: &[u8],
    p: usize,
    r: &[u8],
    h: Shape,
    k: &mut [u8],
) -> Result<(), Fault>
    requires { Aided f.now start t.old n map.now k.old × Bounded h × (length r.now ≤ 16777216) × (record_readable (fields_at r.now h 24) ≡ true) × RightFrom r.now h 24 }
    ensures { (Says f.now start (marks 1 (fields_at r.now h 24)) result) × Aided f.now start t.new n map.now k.new }
{
    let mut q = 28 + h.a + h.b;
    let mut i = 2;
    while r[q] != 0x1e {
        entry_named(f, start, t, n, map, p, r, h, q, i, k)?;
        q += 4 + h.a + h.b;
        i += 1;
    }
    Ok(())
}
