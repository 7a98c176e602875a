// The update records that name a key, one after the other, on what stands under it.
ghost use Rattle.std.specs.Prelude.{◌≤◌, length};
ghost use Rattle.incoming.specs.Fitting.{Rest};
ghost use Rattle.keys.specs.Look.{Sound};
ghost use Rattle.keys.specs.Places.{Leads};
ghost use Rattle.sorting.specs.Places.{Indexed};
ghost use Rattle.history.specs.Ready.{Short};
ghost use Rattle.history.specs.Played.{Playing, Played, Coursed};

use crate::single::act;
use base::Fault;
use keys::look::look_at;
use sorting::index::next;
use version::Version;

// Where they end, at the first that is refused or at the update's end, and what the last of them left, or its refusal.
#[derive(Clone, Copy)]
pub struct Course {
    pub at: usize,
    pub left: Result<Option<Version>, Fault>,
}

// Those from `from` on, found by an index of those from us on.
pub fn follow(
    d: &[u8],
    u: &[u8],
    us: usize,
    index: &[u8],
    from: usize,
    key: u64,
    p: Option<Version>,
    work: &mut [u8],
) -> Course
    requires short { Short d.now u.now × Rest u.now from × (from ≤ length u.now) × (400000 ≤ length work.old) }
    requires sound { Sound u.now us × Leads u.now us from × Indexed u.now us index.now }
    requires playing { Playing d.now u.now work.old p key }
    ensures { Coursed d.now u.now from work.old p key work.new result }
{
    let mut q = next(u, us, index, from, key);
    let mut v = p;
    while q < u.len() {
        let Some(look) = look_at(u, q) else {
            break;
        };
        v = match act(d, u, q, v, work) {
            Ok(made) => made,
            Err(fault) => {
                return Course {
                    at: q,
                    left: Err(fault),
                };
            }
        };
        q = next(u, us, index, q + look.len, key);
    }
    Course { at: q, left: Ok(v) }
}

// What they leave, or the first refusal.
pub fn play_all(
    d: &[u8],
    u: &[u8],
    us: usize,
    index: &[u8],
    from: usize,
    key: u64,
    p: Option<Version>,
    work: &mut [u8],
) -> Result<Option<Version>, Fault>
    requires short { Short d.now u.now × Rest u.now from × (from ≤ length u.now) × (400000 ≤ length work.old) }
    requires sound { Sound u.now us × Leads u.now us from × Indexed u.now us index.now }
    requires playing { Playing d.now u.now work.old p key }
    ensures { Played d.now u.now from (length u.now) work.old p key work.new result }
{
    let c = follow(d, u, us, index, from, key, p, work);
    c.left
}
