// What a record's line counts.
ghost use Rattle.std.specs.Prelude.{◌≡◌, ◌≤◌, length};
ghost use Rattle.skeleton.specs.Place.{fields_at};
ghost use Rattle.skeleton.specs.Shape.{Bounded};
ghost use Rattle.listing.specs.Said.{entries_of, entries_in, tuples_of, tuples_in};

use fields::{Format, tally_of};
use rules::tags;
use skeleton::directory::Shape;
use skeleton::place::{find, place_at};

// The entries of an ATTR.
fn entries_of(b: &[u8]) -> usize
    ensures { result ≡ entries_of b.now }
{
    tally_of(Format::AttrNew, b).unwrap_or(0)
}

// The entries of a record's ATTR.
pub fn entries(r: &[u8], h: Shape) -> usize
    requires { Bounded h }
    ensures { result ≡ entries_in (fields_at r.now h 24) }
{
    let Some(field) = find(r, h, tags::ATTR, 24) else {
        return 0;
    };
    entries_of(&r[field.start..field.end])
}

// The coordinate tuples, of 8 bytes each, of a field of so many bytes: none if it is no C2IT and no C2IL.
fn tuples_of(tag: u32, bytes: usize) -> usize
    ensures { result ≡ tuples_of tag bytes }
{
    if tag == tags::C2IT || tag == tags::C2IL {
        return bytes / 8;
    }
    0
}

// The coordinate tuples of a record.
pub fn tuples(r: &[u8], h: Shape) -> usize
    requires { Bounded h × (length r.now ≤ 65536) }
    ensures { result ≡ tuples_in (fields_at r.now h 24) }
{
    let mut q = 24;
    let mut n = 0;
    while let Some(field) = place_at(r, h, q) {
        n += tuples_of(field.tag, field.end - field.start);
        q = field.next;
    }
    n
}
