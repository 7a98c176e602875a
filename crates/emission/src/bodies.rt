// The bodies that cells refer to: how long they are, and copies of them.
ghost use Rattle.std.specs.Prelude.{◌≡◌, ◌+◌, ◌*◌, ◌≤◌, length};
ghost use Rattle.memory.specs.Wrote.{Wrote};
ghost use Rattle.skeleton.specs.Emit.{sizes, entries, contents};
ghost use Rattle.skeleton.specs.Place.{between};
ghost use Rattle.rules.specs.Written.{field_width};
ghost use Rattle.cells.specs.Cells.{body_at, bodies_of};
ghost use Rattle.emission.specs.Bodies.{joined, inas_fields};

use cells::cell::u24_at;
use cells::length::{body_length, inside};
use memory::writing::{put_byte, put_part};
use rules::tags;
use writing::parts::put_entry;

// Those of n bytes from `start` on that are in b.
fn put_inside(b: &[u8], start: usize, n: usize, out: &mut [u8], at: usize) -> usize
    requires { at + length (between b.now start (start + n)) ≤ length out.old }
    ensures { Wrote at (between b.now start (start + n)) out.old result out.new }
{
    let k = inside(b, start, n);
    if k == 0 {
        at
    } else {
        put_part(out, at, b, start, k)
    }
}

// The body of cell i.
pub fn put_body(d: &[u8], u: &[u8], c: &[u8], i: usize, out: &mut [u8], at: usize) -> usize
    requires { (7 * i + 7 ≤ length c.now) × (at + length (body_at d.now u.now c.now i) ≤ length out.old) }
    ensures { Wrote at (body_at d.now u.now c.now i) out.old result out.new }
{
    let start = u24_at(c, 7 * i);
    let n = u24_at(c, 7 * i + 4);
    if c[7 * i + 3] == 0 {
        put_inside(d, start, n, out, at)
    } else {
        put_inside(u, start, n, out, at)
    }
}

// The bodies of n cells one after the other.
pub fn put_bodies(d: &[u8], u: &[u8], c: &[u8], n: usize, out: &mut [u8], at: usize) -> usize
    requires { (7 * n ≤ length c.now) × (at + length (joined (bodies_of d.now u.now c.now n)) ≤ length out.old) }
    ensures { Wrote at (joined (bodies_of d.now u.now c.now n)) out.old result out.new }
{
    let mut p = at;
    for i in 0..n {
        p = put_body(d, u, c, i, out, p);
    }
    p
}

// The directory's entries of the bodies of n cells as INAS fields, the first of which is at `from`.
pub fn put_inas_entries(
    d: &[u8],
    u: &[u8],
    c: &[u8],
    n: usize,
    out: &mut [u8],
    at: usize,
    from: usize,
) -> usize
    requires { (7 * n ≤ length c.now) × (length c.now ≤ 400000) × (from ≤ 281474976710656) × (at + 14 * n ≤ length out.old) }
    ensures { (result ≡ at + 14 * n) × Wrote at (entries field_width field_width from (inas_fields (bodies_of d.now u.now c.now n))) out.old result out.new }
{
    let mut p = at;
    let mut pos = from;
    for i in 0..n {
        let size = body_length(d, u, c, i) + 1;
        p = put_entry(out, p, tags::INAS, size, pos);
        pos += size;
    }
    p
}

// The bodies of n cells as INAS fields, each with its 1E.
pub fn put_inas_fields(d: &[u8], u: &[u8], c: &[u8], n: usize, out: &mut [u8], at: usize) -> usize
    requires { (7 * n ≤ length c.now) × (at + sizes (inas_fields (bodies_of d.now u.now c.now n)) ≤ length out.old) }
    ensures { Wrote at (contents (inas_fields (bodies_of d.now u.now c.now n))) out.old result out.new }
{
    let mut p = at;
    for i in 0..n {
        let q = put_body(d, u, c, i, out, p);
        p = put_byte(out, q, 30);
    }
    p
}
