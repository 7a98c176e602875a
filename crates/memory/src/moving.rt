// Copies from one slice to another, and moves inside one slice.
ghost use Rattle.std.specs.Prelude.{◌≡◌, ◌+◌, ◌-◌, ◌≤◌, length};
ghost use Rattle.memory.specs.Put.{part, put};

// n bytes of src from index `from` on are stored in dst from index `at` on. A loop, since most copies are of some ten bytes, and `copy_from_slice` takes
// half as long again for those.
pub fn copy(src: &[u8], from: usize, n: usize, dst: &mut [u8], at: usize)
    requires { (from + n ≤ length src.now) × (at + n ≤ length dst.old) }
    ensures { dst.new ≡ put at (part from n src.now) dst.old }
{
    for k in 0..n {
        dst[at + k] = src[from + k];
    }
}

// A block of 64 bytes is moved, whether the two places overlap or not: all of it is read before any of it is stored.
fn move_block(w: &mut [u8], from: usize, at: usize)
    requires { (from + 64 ≤ length w.old) × (at + 64 ≤ length w.old) }
    ensures { w.new ≡ put at (part from 64 w.old) w.old }
{
    let mut held: [u8; 64] = [0; 64];
    copy(w, from, 64, &mut held, 0);
    copy(&held, 0, 64, w, at);
}

// n bytes of w from index `from` on are moved to index `at`, which is not above: the first goes first, so that none is
// overwritten before it is read. The compiler knows this loop as a move of memory, and makes no loop of it.
pub fn move_down(w: &mut [u8], from: usize, n: usize, at: usize)
    requires { (at ≤ from) × (from + n ≤ length w.old) }
    ensures { w.new ≡ put at (part from n w.old) w.old }
{
    for k in 0..n {
        w[at + k] = w[from + k];
    }
}

// As many whole blocks at the end of n bytes of w from index `from` on as there are are moved to index `at`, which is not below, the last first; how
// many bytes are left in front of them. The compiler does not know a loop downwards as a move, and blocks are ten times faster than bytes.
fn blocks_up(w: &mut [u8], from: usize, n: usize, at: usize) -> usize
    requires { (from ≤ at) × (at + n ≤ length w.old) }
    ensures { (result ≤ n) × (w.new ≡ put (at + result) (part (from + result) (n - result) w.old) w.old) }
{
    let mut k = n;
    // A `while`: it goes by blocks.
    while 64 <= k {
        k -= 64;
        move_block(w, from + k, at + k);
    }
    k
}

// All of them byte by byte, the last first.
fn bytes_up(w: &mut [u8], from: usize, n: usize, at: usize)
    requires { (from ≤ at) × (at + n ≤ length w.old) }
    ensures { w.new ≡ put at (part from n w.old) w.old }
{
    for k in (0..n).rev() {
        w[at + k] = w[from + k];
    }
}

// n bytes of w from index `from` on are moved to index `at`, which is not below.
pub fn move_up(w: &mut [u8], from: usize, n: usize, at: usize)
    requires { (from ≤ at) × (at + n ≤ length w.old) }
    ensures { w.new ≡ put at (part from n w.old) w.old }
{
    let k = blocks_up(w, from, n, at);
    bytes_up(w, from, k, at);
}

// The same to any index.
pub fn shift(w: &mut [u8], from: usize, n: usize, at: usize)
    requires { (from + n ≤ length w.old) × (at + n ≤ length w.old) }
    ensures { w.new ≡ put at (part from n w.old) w.old }
{
    if from < at {
        move_up(w, from, n, at);
    } else {
        move_down(w, from, n, at);
    }
}
