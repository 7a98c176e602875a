// Writers of bytes and numbers. Each returns the index after what it wrote, so that writes follow one another.
ghost use Rattle.std.specs.Prelude.{◌≡◌, ◌∷◌, [], ◌+◌, ◌≤◌, length};
ghost use Rattle.memory.specs.Put.{part};
ghost use Rattle.memory.specs.Digits.{little_endian, decimal};
ghost use Rattle.memory.specs.Wrote.{Wrote};

use crate::moving::copy;

// One byte.
pub fn put_byte(out: &mut [u8], at: usize, x: u8) -> usize
    requires { at + 1 ≤ length out.old }
    ensures { (result ≡ at + 1) × Wrote at (x ∷ []) out.old result out.new }
{
    out[at] = x;
    at + 1
}

// n bytes of src from index `from` on.
pub fn put_part(out: &mut [u8], at: usize, src: &[u8], from: usize, n: usize) -> usize
    requires { (at + n ≤ length out.old) × (from + n ≤ length src.now) }
    ensures { (result ≡ at + n) × Wrote at (part from n src.now) out.old result out.new }
{
    copy(src, from, n, out, at);
    at + n
}

// The w lowest bytes of x, the lowest first.
pub fn put_little_endian(out: &mut [u8], at: usize, w: usize, x: usize) -> usize
    requires { at + w ≤ length out.old }
    ensures { (result ≡ at + w) × Wrote at (little_endian w x) out.old result out.new }
{
    let mut rest = x;
    for k in 0..w {
        out[at + k] = (rest % 256) as u8;
        rest /= 256;
    }
    at + w
}

// The w lowest decimal digits of x, the highest first: the lowest is known first, so the last goes first.
pub fn put_decimal(out: &mut [u8], at: usize, w: usize, x: usize) -> usize
    requires { at + w ≤ length out.old }
    ensures { (result ≡ at + w) × Wrote at (decimal w x) out.old result out.new }
{
    let mut rest = x;
    for k in (0..w).rev() {
        out[at + k] = (48 + rest % 10) as u8;
        rest /= 10;
    }
    at + w
}
