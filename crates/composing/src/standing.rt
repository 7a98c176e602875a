// Whether a record stands under a key in the end.
ghost use Rattle.std.specs.Prelude.{◌≤◌, length};
ghost use Rattle.composing.specs.Settled.{Asks, Tells};
ghost use Rattle.composing.specs.Tied.{Noted, Stays};

use crate::acts::fate;
use keys::bits::flag;
use sorting::found::has_by;
use sorting::limits::{Limits, new_index, old_index};

// Where the flag of the key is not raised, no update record names it.
pub fn stands(
    d: &[u8],
    ds: usize,
    t: &[u32],
    n: usize,
    map: &[u8],
    u: &[u8],
    us: usize,
    flags: &[u8],
    out: &[u8],
    lim: Limits,
    key: u64,
) -> bool
    requires { Asks d.now ds t.now n map.now u.now us flags.now lim out.now }
    ensures { Tells d.now ds u.now us flags.now key result }
{
    let before = has_by(d, ds, t, n, map, old_index(out, lim), key);
    if flag(flags, (key % 111997) as usize) {
        return fate(u, us, new_index(out, lim), key, before);
    }
    before
}

// The same of a key that the dataset has.
pub fn stays(u: &[u8], us: usize, flags: &[u8], out: &[u8], lim: Limits, key: u64) -> bool
    requires { Noted u.now us lim out.now × (14000 ≤ length flags.now) }
    ensures { Stays u.now us flags.now key result }
{
    if flag(flags, (key % 111997) as usize) {
        return fate(u, us, new_index(out, lim), key, true);
    }
    true
}
