// One record of the result: what it names, and its bytes.
ghost use Rattle.std.specs.Prelude.{◌≡◌, true, ◌≤◌, length};
ghost use Rattle.base.specs.Lists.{gather};
ghost use Rattle.skeleton.specs.Place.{fields_at};
ghost use Rattle.skeleton.specs.Shape.{Bounded};
ghost use Rattle.rules.specs.Associations.{field_keys};
ghost use Rattle.rules.specs.Written.{written_length};
ghost use Rattle.references.specs.Readable.{all_readable};
ghost use Rattle.writing.specs.House.{in_house_form};
ghost use Rattle.composing.specs.Tied.{Noted, StaysAll};
ghost use Rattle.composing.specs.Made.{Surely, CarriesTied};

use crate::carrying::carry;
use crate::naming::fields_stand;
use skeleton::directory::Shape;
use sorting::limits::Limits;

// Whether the records that the record r names stand, where that is not known before.
fn passes(u: &[u8], us: usize, flags: &[u8], out: &[u8], lim: Limits, r: &[u8], h: Shape) -> bool
    requires { Noted u.now us lim out.now × (14000 ≤ length flags.now) × Bounded h × (length r.now ≤ 16777216) × (all_readable (fields_at r.now h 24) ≡ true) }
    ensures { Surely lim.sure (StaysAll u.now us flags.now (gather field_keys (fields_at r.now h 24)) result) result }
{
    lim.sure || fields_stand(u, us, flags, out, lim, r, h)
}

// The record r of the dataset, which no update record names: where the next one begins; or none, since r names a record that does not stand (11).
pub fn make_untouched(
    u: &[u8],
    us: usize,
    flags: &[u8],
    r: &[u8],
    h: Shape,
    out: &mut [u8],
    to: usize,
    lim: Limits,
) -> Option<usize>
    requires noted { Noted u.now us lim out.old × (14000 ≤ length flags.now) × Bounded h × (length r.now ≤ 16777216) × (all_readable (fields_at r.now h 24) ≡ true) }
    requires short { (to ≤ 4611686018427387904) × (written_length (in_house_form true (fields_at r.now h 24)) ≤ 99999) }
    ensures { CarriesTied u.now us flags.now lim.sure (fields_at r.now h 24) to out.old out.new result }
{
    if !passes(u, us, flags, out, lim, r, h) {
        return None;
    }
    Some(carry(r, h, out, to))
}
