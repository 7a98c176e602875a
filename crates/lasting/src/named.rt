// The update records that name a key, by their index at the end of the output.
ghost use Rattle.std.specs.Prelude.{◌≡◌, ◌≤◌, length};
ghost use Rattle.incoming.specs.Fitting.{Rest};
ghost use Rattle.keys.specs.Places.{Leads};
ghost use Rattle.composing.specs.Acts.{deleted_from};
ghost use Rattle.composing.specs.Tied.{Noted};
ghost use Rattle.history.specs.Ready.{Short};
ghost use Rattle.history.specs.Played.{Playing, Played};

use base::Fault;
use composing::acts::deleted_from;
use history::playing::play_all;
use sorting::limits::{Limits, new_index};
use version::Version;

// Whether one of those from `from` on deletes the key.
pub fn deleted(u: &[u8], us: usize, out: &[u8], lim: Limits, from: usize, key: u64) -> bool
    requires { Noted u.now us lim out.now × Leads u.now us from }
    ensures { result ≡ deleted_from u.now from key }
{
    deleted_from(u, us, new_index(out, lim), from, key)
}

// What those from `from` on make of what stands under it, or the first refusal.
pub fn play_named(
    d: &[u8],
    u: &[u8],
    us: usize,
    out: &[u8],
    lim: Limits,
    from: usize,
    key: u64,
    p: Option<Version>,
    work: &mut [u8],
) -> Result<Option<Version>, Fault>
    requires short { Short d.now u.now × Rest u.now from × (from ≤ length u.now) × (400000 ≤ length work.old) }
    requires noted { Noted u.now us lim out.now × Leads u.now us from }
    requires playing { Playing d.now u.now work.old p key }
    ensures { Played d.now u.now from (length u.now) work.old p key work.new result }
{
    play_all(d, u, us, new_index(out, lim), from, key, p, work)
}
