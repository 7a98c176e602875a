// One tuple after the other.
ghost use Rattle.std.specs.Prelude.{◌≡◌};
ghost use Rattle.fields.specs.Table.{tuple_of};
ghost use Rattle.fields.specs.Places.{tuple_at};

use crate::Format;
use crate::row::{Shape, rows_end, rows_of};

// Where the tuple at `at` ends, if there is one.
pub fn tuple_at(k: Format, b: &[u8], at: usize) -> Option<usize>
    ensures { result ≡ tuple_at (tuple_of k) b.now at }
{
    if b.len() <= at {
        return None;
    }
    let Shape(_, tuple, end) = rows_of(k);
    rows_end(tuple, end, b, at)
}
