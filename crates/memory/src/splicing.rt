// Edits of the first `used` bytes of a slice. The result is how many are in use afterwards.
ghost use Rattle.std.specs.Prelude.{◌≡◌, [], ◌+◌, ◌-◌, ◌≤◌, length};
ghost use Rattle.memory.specs.Put.{part};
ghost use Rattle.memory.specs.Splice.{spliced_in, opened};

use crate::moving::{copy, move_down, move_up, shift};

// Room for n bytes is made at index `at`. What stands there is not cleared.
pub fn open_gap(w: &mut [u8], used: usize, at: usize, n: usize) -> usize
    requires { (at ≤ used) × (used + n ≤ length w.old) }
    ensures { (result ≡ used + n) × (w.new ≡ opened used at n w.old) }
{
    move_up(w, at, used - at, at + n);
    used + n
}

// The n bytes from index `at` on are taken out.
pub fn close_gap(w: &mut [u8], used: usize, at: usize, n: usize) -> usize
    requires { (at + n ≤ used) × (used ≤ length w.old) }
    ensures { (result ≡ used - n) × (w.new ≡ spliced_in used at n [] w.old) }
{
    let cut = at + n;
    move_down(w, cut, used - cut, at);
    used - n
}

// The `del` bytes from index `at` on are replaced by n bytes of src from index `from` on.
pub fn splice(
    w: &mut [u8],
    used: usize,
    at: usize,
    del: usize,
    src: &[u8],
    from: usize,
    n: usize,
) -> usize
    requires { (at + del ≤ used) × (used ≤ length w.old) × (used - del + n ≤ length w.old) × (from + n ≤ length src.now) }
    ensures { (result ≡ used - del + n) × (w.new ≡ spliced_in used at del (part from n src.now) w.old) }
{
    let cut = at + del;
    shift(w, cut, used - cut, at + n);
    copy(src, from, n, w, at);
    used - del + n
}
