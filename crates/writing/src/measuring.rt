// How long a record is when it is written.
ghost use Rattle.std.specs.Prelude.{◌≡◌, ◌+◌, ◌*◌, ◌≤◌, length};
ghost use Rattle.skeleton.specs.Place.{fields_at};
ghost use Rattle.skeleton.specs.Shape.{Bounded};
ghost use Rattle.rules.specs.Written.{written_length};
ghost use Rattle.writing.specs.House.{in_house_form};
ghost use Rattle.writing.specs.Found.{house_at, Summed};

use crate::joining::next_written;
use skeleton::directory::Shape;

// How many fields are written, and how many bytes they have, the 1E of each included.
#[derive(Clone, Copy)]
pub struct Sum {
    pub fields: usize,
    pub bytes: usize,
}

// The fields of a record as they are written, counted.
pub fn count_written(r: &[u8], h: Shape, joins: bool) -> Sum
    requires { Bounded h × (length r.now ≤ 16777216) }
    ensures { Summed (house_at joins r.now h 24) result }
{
    let mut q = 24;
    let mut fields = 0;
    let mut bytes = 0;
    while let Some(field) = next_written(r, h, joins, q) {
        fields += 1;
        bytes += field.size + 1;
        q = field.after;
    }
    Sum { fields, bytes }
}

// The length of a record with so many fields and bytes.
pub fn length_of(s: Sum) -> usize
    requires { (s.fields ≤ 16777216) × (s.bytes ≤ 281474993487872) }
    ensures { result ≡ 25 + 14 * s.fields + s.bytes }
{
    25 + 14 * s.fields + s.bytes
}

// The length of a record as it is written; joins: its lists are joined, else its fields are carried as they are.
pub fn written_length(r: &[u8], h: Shape, joins: bool) -> usize
    requires { Bounded h × (length r.now ≤ 16777216) }
    ensures { result ≡ written_length (in_house_form joins (fields_at r.now h 24)) }
{
    length_of(count_written(r, h, joins))
}
