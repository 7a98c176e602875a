// One cell: where a body stands.
ghost use Rattle.std.specs.Prelude.{◌≡◌, List, [], ◌∷◌, ◌++◌, ℕ, ◌+◌, ◌-◌, ◌*◌, ◌≤◌, ◌<◌, length};
ghost use Rattle.memory.specs.Put.{put};
ghost use Rattle.skeleton.specs.Place.{between};
ghost use Rattle.items.specs.Items.{source};
ghost use Rattle.cells.specs.Cells.{u24, cell_bytes, bodies_of};

use fields::number::{le8, le16};

// The number of three bytes at an index.
pub fn u24_at(c: &[u8], i: usize) -> usize
    requires { i + 3 ≤ length c.now }
    ensures { (result ≡ u24 c.now i) × (result < 16777216) }
{
    let low = le16(c, i) as usize;
    let high = le8(c, i + 2) as usize;
    low + 65536 * high
}

// Stores cell i: a body of n bytes from offset `at` on in the slice that x names.
fn put_cell(c: &mut [u8], i: usize, at: usize, x: u8, n: usize)
    requires { 7 * i + 7 ≤ length c.old }
    ensures { c.new ≡ put (7 * i) (cell_bytes at x n) c.old }
{
    let k = 7 * i;
    c[k] = (at % 256) as u8;
    c[k + 1] = (at / 256 % 256) as u8;
    c[k + 2] = (at / 65536 % 256) as u8;
    c[k + 3] = x;
    c[k + 4] = (n % 256) as u8;
    c[k + 5] = (n / 256 % 256) as u8;
    c[k + 6] = (n / 65536 % 256) as u8;
}

// Adds the body from at to end in the slice that x names behind the first n.
pub fn add(at: usize, end: usize, x: u8, c: &mut [u8], n: usize) -> usize
    requires { (at ≤ end) × (end ≤ 16777216) × (end - at < 16777216) × (7 * n + 7 ≤ length c.old) }
    ensures { (result ≡ n + 1) × ((d u : List ℕ) → bodies_of d u c.new (n + 1) ≡ bodies_of d u c.old n ++ (between (source x d u) at end ∷ [])) }
{
    put_cell(c, n, at, x, end - at);
    n + 1
}
