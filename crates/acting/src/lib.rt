// What the fields of a modify do to the version that the workspace holds.
#![tactic(auto)]

use base::Fault;
use part::act_field;
use skeleton::directory::Shape;
use skeleton::place::place_at;
use version::Version;

pub mod part;

ghost use Rattle.std.specs.Prelude.{◌+◌, ◌≤◌, length};
ghost use Rattle.skeleton.specs.Place.{between, fields_at};
ghost use Rattle.rules.specs.Coordinates.{sent};
ghost use Rattle.rules.specs.Modify.{act_fields};
ghost use Rattle.version.specs.Present.{FlagsKept};
ghost use Rattle.acting.specs.Ready.{Small, Modifies};
ghost use Rattle.acting.specs.Acted.{Holding, ActedBy};

// The fields of the modify u[at..at + len] act in order on version v of the workspace, which is answered as it is then; d is the dataset.
pub fn act_fields(
    d: &[u8],
    u: &[u8],
    at: usize,
    len: usize,
    h: Shape,
    v: Version,
    work: &mut [u8],
) -> Result<Version, Fault>
    requires { (length u.now ≤ 16777216) × (400000 ≤ length work.old) × Modifies u.now at len h v × Small v × Holding d.now u.now work.old v
        × (length d.now ≤ 16777216) }
    ensures { ActedBy d.now u.now work.old v
        (act_fields (sent (fields_at (between u.now at (at + len)) h 24)) 1 (fields_at (between u.now at (at + len)) h 24)) work.new result × FlagsKept work.old work.new }
{
    let end = at + len;
    let mut q = 24;
    let mut i = 1;
    let mut e = v;
    while let Some(field) = place_at(&u[at..end], h, q) {
        let from = at + field.start;
        let to = at + field.end;
        match act_field(d, u, at, len, h, field.tag, from, to, e, work) {
            Ok(now) => {
                e = now;
            }
            Err(fault) => {
                return Err(Fault { field: i, ..fault });
            }
        }
        q = field.next;
        i += 1;
    }
    Ok(e)
}
