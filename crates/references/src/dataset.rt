// Number 11 of a dataset whose records have passed 1 to 7.
ghost use Rattle.std.specs.Prelude.{◌≡◌, true, [], ◌≤◌, length};
ghost use Rattle.base.specs.Check.{fault};
ghost use Rattle.base.specs.Verdict.{refusal};
ghost use Rattle.base.specs.Walk.{Got};
ghost use Rattle.skeleton.specs.File.{records_from};
ghost use Rattle.rules.specs.Outcome.{done};
ghost use Rattle.keys.specs.Standing.{outcome_from};
ghost use Rattle.references.specs.Readable.{every_readable};
ghost use Rattle.references.specs.Linked.{Answers};
ghost use Rattle.references.specs.Vouched.{Aided};

use crate::record::record_named;
use base::{Fault, Refusal};
use keys::table::spread;
use skeleton::file::stated_at;

// A reference to a record that does not exist: the record of the file, the field of the record and the tuple of the field that name it, all from 1, 0 where no
// tuple applies.
#[derive(Clone, Copy, PartialEq, Eq)]
pub struct LooseReference {
    pub rec: usize,
    pub field: usize,
    pub tuple: usize,
}

// It is 11.
impl From<LooseReference> for Refusal {
    ghost from_gives = { λ l r. r ≡ refusal l.rec (fault 11 l.field l.tuple) };

    fn from(l: LooseReference) -> Refusal {
        Refusal {
            rec: l.rec,
            fault: Fault {
                number: 11,
                field: l.field,
                tuple: l.tuple,
            },
        }
    }
}

// Whether every record that those from start on name exists, or the first loose reference; the first of them is the fourth of the file.
fn every_named(
    f: &[u8],
    start: usize,
    t: &mut [u32],
    n: usize,
    map: &[u8],
    k: &mut [u8],
) -> Result<(), LooseReference>
    requires { Aided f.now start t.old n map.now k.old × (every_readable (records_from f.now start).items ≡ true) }
    ensures { Answers f.now start result }
{
    let mut p = start;
    let mut m = 0;
    while let Ok(head) = stated_at(f, p) {
        let e = p + head.len;
        match record_named(f, start, t, n, map, p, &f[p..e], head.shape, k) {
            Ok(()) => {
                p = e;
                m += 1;
            }
            Err(fault) => {
                return Err(LooseReference {
                    rec: m + 4,
                    field: fault.field,
                    tuple: fault.tuple,
                });
            }
        }
    }
    Ok(())
}

// Whether every record that is named exists, or the first loose reference, of a dataset whose records from start on, from the fourth on, have passed 1 to 7;
// the map is for the keys that can be named, whatever it holds before. Where the keys do not ascend, the table becomes a book.
pub fn loose(f: &[u8], start: usize, map: &mut [u8]) -> Result<(), LooseReference>
    requires { (outcome_from f.now start 0 [] ≡ done tt) × (length f.now ≤ 16777216) × (start ≤ length f.now) }
    ensures { Answers f.now start result }
{
    let mut table = [start as u32; 6144];
    let stride = (f.len() - start) / 131072 + 1;
    let n = spread(f, start, stride, &mut table, map);
    let mut flags = [0u8; 7936];
    every_named(f, start, &mut table, n, map, &mut flags)
}
