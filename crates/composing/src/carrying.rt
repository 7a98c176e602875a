// A record of the dataset that no update record names: it is written as it stands.
ghost use Rattle.std.specs.Prelude.{true, ◌≤◌, length};
ghost use Rattle.skeleton.specs.Place.{fields_at};
ghost use Rattle.skeleton.specs.Shape.{Bounded};
ghost use Rattle.rules.specs.Written.{written_length};
ghost use Rattle.writing.specs.House.{in_house_form};
ghost use Rattle.composing.specs.Emitted.{Emitted};

use skeleton::directory::Shape;
use writing::measuring::{count_written, length_of};
use writing::writer::write_counted;

// The record r is written from `to` on where there is room; says where the next one begins in any case.
pub fn carry(r: &[u8], h: Shape, out: &mut [u8], to: usize) -> usize
    requires { Bounded h × (length r.now ≤ 16777216) × (to ≤ 4611686018427387904) × (written_length (in_house_form true (fields_at r.now h 24)) ≤ 99999) }
    ensures { Emitted (in_house_form true (fields_at r.now h 24)) to out.old result out.new }
{
    let s = count_written(r, h, true);
    let n = to + length_of(s);
    if out.len() < n {
        return n;
    }
    write_counted(r, h, true, false, s, out, to)
}
