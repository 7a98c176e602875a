// Keys of a record's associations, INAS and SPAS, that would have to be searched for among earlier ones, counted up to sixteen:
// where there is none, each key stands once.
ghost use Rattle.std.specs.Prelude.{◌≡◌, true, false, ◌+◌, ◌*◌, ◌≤◌, ◌<◌, get_or};
ghost use Rattle.fields.specs.Table.{head_of, tuple_of};
ghost use Rattle.fields.specs.Content.{fill};
ghost use Rattle.fields.specs.declared.Format.TheVariants.{Spas};
ghost use Rattle.skeleton.specs.Directory.{tag_at};
ghost use Rattle.skeleton.specs.Place.{fields_at};
ghost use Rattle.skeleton.specs.RightFrom.{RightFrom};
ghost use Rattle.skeleton.specs.Shape.{Bounded};
ghost use Rattle.contents.specs.Fit.{all_fit};
ghost use Rattle.contents.specs.Keys.{once_from};
ghost use Rattle.contents.specs.Strays.{SpasRises, FieldRises};

use crate::passed::tag_passed;
use crate::spatial::{key_number, top_with};
use fields::{le8, le32};
use rules::tags;
use skeleton::directory::{Shape, tag_at};
use skeleton::place::place_at;

// The largest number of a spatial key so far, and how many keys are to be searched for.
#[derive(Clone, Copy)]
pub struct Strays {
    pub top: usize,
    pub count: usize,
}

// One more, up to sixteen.
fn one_more(count: usize) -> usize
    ensures { 0 < result }
{
    if count < 16 {
        return count + 1;
    }
    count
}

// One more where a key's number is not above the largest.
fn count_with(count: usize, top: usize, x: u8, y: u32) -> usize
    ensures { result ≡ 0 → (count ≡ 0) × (top < x * 4294967296 + y) }
{
    if top < key_number(x, y) {
        return count;
    }
    one_more(count)
}

// With the keys of the SPAS b.
fn in_spas(b: &[u8], before: Strays) -> Strays
    requires { fill (head_of Spas) (tuple_of Spas) b.now ≡ true }
    ensures { SpasRises b.now before result }
{
    let mut top = before.top;
    let mut count = before.count;
    for j in 0..b.len() / 15 {
        let x = le8(b, 15 * j);
        let y = le32(b, 15 * j + 1);
        count = count_with(count, top, x, y);
        top = top_with(top, x, y);
    }
    Strays { top, count }
}

// With the keys of the field with this tag whose entry stands at q; informed: there was an INAS before.
fn in_field(r: &[u8], h: Shape, q: usize, tag: u32, informed: bool, before: Strays) -> Strays
    requires { Bounded h × (all_fit false (fields_at r.now h q) ≡ true) × RightFrom r.now h q × (get_or r.now q 0 ≡ 30 → ⊥) × (tag ≡ tag_at r.now q) }
    ensures { FieldRises r.now h q tag informed before result }
{
    if tag == tags::INAS {
        if informed {
            return Strays {
                top: before.top,
                count: one_more(before.count),
            };
        }
        return before;
    }
    if tag != tags::SPAS {
        return before;
    }
    match place_at(r, h, q) {
        Some(field) => in_spas(&r[field.start..field.end], before),
        None => before,
    }
}

// How many there are among the fields from the entry at p on, the second of the record, in a directory that was found right.
pub fn count_strays(r: &[u8], h: Shape, p: usize) -> usize
    requires { Bounded h × (2 ≤ p) × (all_fit false (fields_at r.now h p) ≡ true) × RightFrom r.now h p }
    ensures { result ≡ 0 → once_from r.now h p 0 ≡ Ok tt }
{
    let mut q = p;
    let mut n: usize = 0;
    let mut found = Strays { top: 0, count: 0 };
    let mut informed = false;
    while r[q] != 0x1e {
        let tag = tag_at(r, q);
        found = in_field(r, h, q, tag, informed, found);
        informed = tag_passed(informed, tag, tags::INAS);
        q += 4 + h.a + h.b;
        n += 1;
    }
    found.count
}
