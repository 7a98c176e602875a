// How long the bodies are that cells refer to.
ghost use Rattle.std.specs.Prelude.{◌≡◌, ◌+◌, ◌*◌, ◌≤◌, length};
ghost use Rattle.skeleton.specs.Place.{between};
ghost use Rattle.cells.specs.Cells.{body_at};

use crate::cell::u24_at;

// How many of n bytes from `start` on are in b.
pub fn inside(b: &[u8], start: usize, n: usize) -> usize
    ensures { (result ≡ length (between b.now start (start + n))) × (result ≤ n) }
{
    b.len().saturating_sub(start).min(n)
}

// How long the body of cell i is.
pub fn body_length(d: &[u8], u: &[u8], c: &[u8], i: usize) -> usize
    requires { 7 * i + 7 ≤ length c.now }
    ensures { (result ≡ length (body_at d.now u.now c.now i)) × (result ≤ 16777215) }
{
    let start = u24_at(c, 7 * i);
    let n = u24_at(c, 7 * i + 4);
    if c[7 * i + 3] == 0 {
        return inside(d, start, n);
    }
    inside(u, start, n)
}
