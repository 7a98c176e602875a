// Fields that are lists: one without bytes has no field.
ghost use Rattle.std.specs.Prelude.{◌≡◌, ℕ, ◌+◌, ◌*◌, ◌≤◌, ◌<◌, length};
ghost use Rattle.memory.specs.Put.{part};
ghost use Rattle.memory.specs.Wrote.{Wrote};
ghost use Rattle.skeleton.specs.Emit.{contents};
ghost use Rattle.forest.specs.Forest.{Forest};
ghost use Rattle.forest.specs.Flat.{flat};
ghost use Rattle.rules.specs.Tags.{ATTR, SPAS};
ghost use Rattle.rules.specs.Written.{list_field, tree_bytes};
ghost use Rattle.items.specs.Items.{its};
ghost use Rattle.cells.specs.Cells.{bodies_of};
ghost use Rattle.numbering.specs.Tuples.{Sized};
ghost use Rattle.emission.specs.Bodies.{joined};
ghost use Rattle.emission.specs.Fields.{list_size, list_count, ListEntry};

use crate::bodies::put_bodies;
use memory::writing::{put_byte, put_part};
use writing::parts::put_entry;

// The bytes of the field of a list of n bytes, its 1E included.
pub fn list_size(n: usize) -> usize
    requires { n ≤ 281474976710656 }
    ensures { (result ≡ list_size n) × (result ≤ n + 1) }
{
    if n == 0 { 0 } else { n + 1 }
}

// One field, or none.
pub fn list_count(n: usize) -> usize
    ensures { (result ≡ list_count n) × (result ≤ 1) }
{
    if n == 0 { 0 } else { 1 }
}

// The directory's entry of a list of n bytes at a position.
pub fn put_list_entry(out: &mut [u8], at: usize, tag: u32, n: usize, pos: usize) -> usize
    requires { (n ≤ 281474976710656) × (at + 14 * list_count n ≤ length out.old) }
    ensures { ListEntry tag n pos at out.old result out.new }
{
    if n == 0 {
        at
    } else {
        put_entry(out, at, tag, n + 1, pos)
    }
}

// A list of n bytes of s from index `from` on, and its 1E.
pub fn put_list(s: &[u8], from: usize, n: usize, out: &mut [u8], at: usize) -> usize
    requires { (from + n ≤ length s.now) × (at + list_size n ≤ length out.old) }
    ensures { (result ≡ at + list_size n) × ((tag : ℕ) → Wrote at (contents (list_field tag (part from n s.now))) out.old result out.new) }
{
    if n == 0 {
        return at;
    }
    let p = put_part(out, at, s, from, n);
    put_byte(out, p, 30)
}

// The attributes, of which the items are in w and the tuples have `size` bytes, and their 1E.
pub fn put_attributes(
    d: &[u8],
    u: &[u8],
    w: &[u8],
    n: usize,
    size: usize,
    out: &mut [u8],
    at: usize,
) -> usize
    requires n_in_bounds { (8 * n ≤ length w.now) × (length w.now < 524288) × (length d.now ≤ 16777216) × (length u.now ≤ 16777216) }
    requires sized { Sized d.now u.now w.now n size × (at + list_size size ≤ length out.old) }
    ensures { (result ≡ at + list_size size) × ((f : Forest) → its d.now u.now w.now 0 n ≡ flat 0 f → Wrote at (contents (list_field ATTR (tree_bytes f))) out.old result out.new) }
{
    if size == 0 {
        return at;
    }
    let p = numbering::emit(d, u, w, n, out, at);
    put_byte(out, p, 30)
}

// The spatial associations, of which the cells are in c, and their 1E.
pub fn put_spatial(d: &[u8], u: &[u8], c: &[u8], n: usize, out: &mut [u8], at: usize) -> usize
    requires { (7 * n ≤ length c.now) × (length (joined (bodies_of d.now u.now c.now n)) ≡ 15 * n) × (at + list_size (15 * n) ≤ length out.old) }
    ensures { Wrote at (contents (list_field SPAS (joined (bodies_of d.now u.now c.now n)))) out.old result out.new }
{
    if n == 0 {
        return at;
    }
    let p = put_bodies(d, u, c, n, out, at);
    put_byte(out, p, 30)
}
