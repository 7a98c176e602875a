// Bodies found by the key that they begin with.
ghost use Rattle.std.specs.Prelude.{◌≡◌, ◌+◌, ◌*◌, ◌≤◌, ◌<◌, length, drop, IfSome};
ghost use Rattle.base.specs.Keys.{same};
ghost use Rattle.base.specs.Lists.{Each};
ghost use Rattle.cells.specs.Cells.{body_at, bodies_of};
ghost use Rattle.cells.specs.Keys.{key_in, key_size, first_with, found_in, Long};

use crate::cell::u24_at;
use fields::number::{le8, le16, le32};

// Whether the bytes of a from i on begin with the key with which those of b from j on begin.
fn same_key(a: &[u8], i: usize, b: &[u8], j: usize, inas: bool) -> bool
    requires { (i + key_size inas ≤ length a.now) × (j + key_size inas ≤ length b.now) }
    ensures { result ≡ same (key_in inas (drop i a.now)) (key_in inas (drop j b.now)) }
{
    le8(a, i) == le8(b, j)
        && le32(a, i + 1) == le32(b, j + 1)
        && (!inas || le16(a, i + 5) == le16(b, j + 5) && le16(a, i + 7) == le16(b, j + 7))
}

// Whether the body of cell i has the key at `at` of u.
fn has_key(d: &[u8], u: &[u8], c: &[u8], i: usize, at: usize, inas: bool) -> bool
    requires { (7 * i + 7 ≤ length c.now) × Long (key_size inas) (body_at d.now u.now c.now i) × (at + key_size inas ≤ length u.now) }
    ensures { result ≡ same (key_in inas (body_at d.now u.now c.now i)) (key_in inas (drop at u.now)) }
{
    let start = u24_at(c, 7 * i);
    if c[7 * i + 3] == 0 {
        return same_key(d, start, u, at, inas);
    }
    same_key(u, start, u, at, inas)
}

// The first of n cells whose body has the key at `at` of u; None where none has it.
pub fn find(d: &[u8], u: &[u8], c: &[u8], n: usize, at: usize, inas: bool) -> Option<usize>
    requires { (7 * n ≤ length c.now) × (at + key_size inas ≤ length u.now) × Each (Long (key_size inas)) (bodies_of d.now u.now c.now n) }
    ensures { (result ≡ found_in n (first_with (key_in inas) (key_in inas (drop at u.now)) (bodies_of d.now u.now c.now n))) × IfSome result (λ i. i < n) }
{
    for i in 0..n {
        if has_key(d, u, c, i, at, inas) {
            return Some(i);
        }
    }
    None
}
