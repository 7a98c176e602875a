// The keys of the tuples of a SPAS: RRNM, RRID at the front of each tuple of 15 bytes.
ghost use Rattle.std.specs.Prelude.{◌≡◌, true, ◌+◌, ◌*◌, ◌≤◌, length};
ghost use Rattle.base.specs.Choice.{larger_of};
ghost use Rattle.fields.specs.Table.{head_of, tuple_of};
ghost use Rattle.fields.specs.Content.{fill};
ghost use Rattle.fields.specs.declared.Format.TheVariants.{Spas};
ghost use Rattle.contents.specs.Keys.{tuple_is, has_from};

use fields::{le8, le32};

// Whether the tuple at `at` has this key.
fn tuple_is(b: &[u8], at: usize, x: u8, y: u32) -> bool
    requires { at + 5 ≤ length b.now }
    ensures { result ≡ tuple_is b.now at x y }
{
    le8(b, at) == x && le32(b, at + 1) == y
}

// Whether one of the first n tuples has this key.
pub fn tuples_have(b: &[u8], n: usize, x: u8, y: u32) -> bool
    requires { (fill (head_of Spas) (tuple_of Spas) b.now ≡ true) × (15 * n ≤ length b.now) }
    ensures { result ≡ has_from b.now 0 n x y }
{
    for j in 0..n {
        if tuple_is(b, 15 * j, x, y) {
            return true;
        }
    }
    false
}

// A key as one number, by which keys are ordered.
pub fn key_number(x: u8, y: u32) -> usize
    ensures { result ≡ x * 4294967296 + y }
{
    usize::from(x) * 4294967296 + y as usize
}

// The larger of a number and of the number of a key.
pub fn top_with(top: usize, x: u8, y: u32) -> usize
    ensures { result ≡ larger_of top (x * 4294967296 + y) }
{
    top.max(key_number(x, y))
}
