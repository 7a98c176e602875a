// The place that COCC names, and the tuples that a record sends for it.
ghost use Rattle.std.specs.Prelude.{◌≡◌, ◌++◌, ◌+◌, ◌*◌, ◌≤◌, ◌<◌, length, take, drop};
ghost use Rattle.skeleton.specs.Emit.{sizes};
ghost use Rattle.skeleton.specs.Place.{fields_at};
ghost use Rattle.skeleton.specs.Shape.{Bounded};
ghost use Rattle.rules.specs.Place.{placed};
ghost use Rattle.rules.specs.Coordinates.{sent};
ghost use Rattle.coords.specs.Tuples.{tuples_of};
ghost use Rattle.coords.specs.Placing.{EvenLists, PlacedAs};

use crate::tuples::{cut_tuples, put_tuples};
use rules::tags;
use skeleton::directory::Shape;
use skeleton::place::place_at;

// The tuples of all C2IL fields of the record r are put before number i, from 0, of the n in l; how many there are then.
pub fn put_sent(r: &[u8], h: Shape, l: &mut [u8], n: usize, i: usize) -> usize
    requires { Bounded h × EvenLists (fields_at r.now h 24) × (8 * n + sizes (fields_at r.now h 24) ≤ length l.old) × (i ≤ n) × (length l.old < 524288) }
    ensures { (8 * result ≤ length l.new)
        × (tuples_of l.new result ≡ take i (tuples_of l.old n) ++ (sent (fields_at r.now h 24) ++ drop i (tuples_of l.old n))) }
{
    let mut q = 24;
    let mut m = n;
    let mut j = i;
    while let Some(field) = place_at(r, h, q) {
        if field.tag == tags::C2IL {
            m = put_tuples(r, field.start, field.end, l, m, j);
            j += (field.end - field.start) / 8;
        }
        q = field.next;
    }
    m
}

// What COCC does, by its instruction (1 insert, 2 delete, 3 modify), its index and its count, with the tuples that the record r sends:
// how many tuples there are then, or none for a place outside the list (9).
pub fn place_tuples(
    r: &[u8],
    h: Shape,
    instruction: usize,
    index: usize,
    count: usize,
    l: &mut [u8],
    n: usize,
) -> Option<usize>
    requires { Bounded h × EvenLists (fields_at r.now h 24) × (8 * n + sizes (fields_at r.now h 24) ≤ length l.old) × (length l.old < 524288) × (0 < index) × (index < 65536) × (count < 65536) }
    ensures { PlacedAs (placed (record { instruction = instruction; index = index; count = count }) (sent (fields_at r.now h 24)) (tuples_of l.old n)) l.new result }
{
    let i = index - 1;
    if instruction == 1 {
        if n < i {
            return None;
        }
        return Some(put_sent(r, h, l, n, i));
    }
    if n < i + count {
        return None;
    }
    let m = cut_tuples(l, n, i, count);
    if instruction == 2 {
        return Some(m);
    }
    Some(put_sent(r, h, l, m, i))
}
