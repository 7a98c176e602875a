// Subfields of a head that stand behind texts. Those behind numbers alone have constant places.
ghost use Rattle.std.specs.Prelude.{◌≡◌};
ghost use Rattle.fields.specs.Table.{head_of};
ghost use Rattle.fields.specs.Places.{head_place};

use crate::Format;
use crate::row::{Shape, rows_end, rows_of};

// Where subfield j, from 0, of the head begins; the end of the head for one that it does not have. None where the subfields up to it do not stand.
pub fn head_place(k: Format, j: usize, b: &[u8]) -> Option<usize>
    ensures { result ≡ head_place (head_of k) j b.now }
{
    let Shape(head, tuple, _) = rows_of(k);
    if j < tuple - head {
        return rows_end(head, head + j, b, 0);
    }
    rows_end(head, tuple, b, 0)
}
