// The index and the parent of an item, by looking back from it.
ghost use Rattle.std.specs.Prelude.{◌≡◌, ◌*◌, ◌≤◌, length};
ghost use Rattle.numbering.specs.Numbers.{parent_before, twins_before};

use items::item::{number, twin};

// The place of the parent of item i, which has this depth; 0 for none.
pub fn parent_before(w: &[u8], i: usize, depth: usize) -> usize
    requires { 8 * i ≤ length w.now }
    ensures { (result ≡ parent_before w.now depth i) × (result ≤ i) }
{
    for k in (0..i).rev() {
        if number(w, 8 * k) < depth {
            return k + 1;
        }
    }
    0
}

// How many items of this code and depth stand before item i under its parent.
pub fn twins_before(w: &[u8], i: usize, depth: usize, code: usize) -> usize
    requires { 8 * i ≤ length w.now }
    ensures { (result ≡ twins_before w.now depth code i) × (result ≤ i) }
{
    let mut t = 0;
    for k in (0..i).rev() {
        if number(w, 8 * k) < depth {
            return t;
        }
        t += twin(w, k, depth, code);
    }
    t
}
