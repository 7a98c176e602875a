// One update record on what stands under the key that it names.
ghost use Rattle.std.specs.Prelude.{◌≤◌, ◌<◌, length};
ghost use Rattle.incoming.specs.Fitting.{Rest};
ghost use Rattle.history.specs.Here.{record_here};
ghost use Rattle.history.specs.Ready.{Short};
ghost use Rattle.history.specs.Played.{Acting, Acted};

use base::Fault;
use changing::change;
use keys::look::{key_at, kind_of};
use skeleton::file::record_at;
use version::Version;

// The update record at `at`: what it leaves, or its refusal.
pub fn act(
    d: &[u8],
    u: &[u8],
    at: usize,
    p: Option<Version>,
    work: &mut [u8],
) -> Result<Option<Version>, Fault>
    requires short { Short d.now u.now × Rest u.now at × (at < length u.now) × (400000 ≤ length work.old) }
    requires acting { Acting d.now u.now work.old p (record_here u.now at) }
    ensures { Acted d.now u.now work.old p (record_here u.now at) work.new result }
{
    let Ok(head) = record_at(u, at) else {
        return Ok(p);
    };
    let k = kind_of(key_at(u, at + head.shape.base));
    change(d, u, at, head.len, head.shape, k, p, work)
}
