// The flags of keys, in the last area of the workspace.
ghost use Rattle.std.specs.Prelude.{◌≡◌, ◌++◌, ◌-◌, ◌≤◌, length, take, drop};
ghost use Rattle.memory.specs.Put.{put};
ghost use Rattle.memory.specs.Hold.{zeros};
ghost use Rattle.keys.specs.Bits.{flag_of, raised};
ghost use Rattle.version.specs.Areas.{flag_area};
ghost use Rattle.history.specs.Flags.{key_flag, Marked};

use keys::bits::{flag, raise};
use memory::clearing::zero_part;
use version::areas::part;

// Raises flag i of those in the bytes from `from` to `to`, which are not numbers here, as in `part`.
fn raise_in(s: &mut [u8], from: usize, to: usize, i: usize)
    requires { (from ≤ to) × (to ≤ length s.old) }
    ensures { s.new ≡ take from s.old ++ (raised (take (to - from) (drop from s.old)) i ++ drop (to - from) (drop from s.old)) }
{
    raise(&mut s[from..to], i);
}

// All of them. Lent here alone, so that the functions that hand them on need not speak of the area's ends.
pub fn flags_of(work: &[u8]) -> &[u8]
    requires { 400000 ≤ length work.now }
    ensures { result.now ≡ flag_area work.now }
{
    part(work, 386000, 400000)
}

// Lowers all of them; the rest of the workspace stays as it is.
pub fn lower(work: &mut [u8])
    requires { 400000 ≤ length work.old }
    ensures { work.new ≡ put 386000 (zeros 14000) work.old }
{
    zero_part(work, 386000, 14000);
}

// Whether the flag of a key is raised: where it is not, no update record so far names the key.
pub fn flagged(work: &[u8], key: u64) -> bool
    requires { 400000 ≤ length work.now }
    ensures { result ≡ flag_of (flag_area work.now) (key_flag key) }
{
    flag(flags_of(work), (key % 111997) as usize)
}

// Raises the flag of a key.
pub fn mark(work: &mut [u8], key: u64)
    requires { 400000 ≤ length work.old }
    ensures { Marked work.old key work.new }
{
    raise_in(work, 386000, 400000, (key % 111997) as usize);
}
