// How many bytes the items of the working form are written in, and these bytes.
ghost use Rattle.std.specs.Prelude.{◌+◌, ◌*◌, ◌≤◌, ◌<◌, length};
ghost use Rattle.memory.specs.Wrote.{Wrote};
ghost use Rattle.items.specs.Items.{value_of, its};
ghost use Rattle.numbering.specs.Known.{Known};
ghost use Rattle.numbering.specs.Block.{Numbered};
ghost use Rattle.numbering.specs.Tuples.{tuple_bytes, size_of, tuple_with, bytes_to, Begun, Sized, Emitted};

use crate::block::number_block;
use crate::known::next_numbers;
use crate::parents::know_parents;
use crate::values::{put_value, value_length};
use items::item::number;
use memory::writing::{put_byte, put_little_endian};

// How many items were written, and the index behind them.
#[derive(Clone, Copy)]
pub struct Part {
    pub count: usize,
    pub behind: usize,
}

// How many bytes the n items of w are written in; s the dataset, u the update.
pub fn size(s: &[u8], u: &[u8], w: &[u8], n: usize) -> usize
    requires { (8 * n ≤ length w.now) × (length w.now < 524288) × (length s.now ≤ 16777216) × (length u.now ≤ 16777216) }
    ensures { Sized s.now u.now w.now n result }
{
    let mut t = 0;
    for i in 0..n {
        t += value_length(s, u, w, i) + 8;
    }
    t
}

// Item i as a tuple with this index and parent.
fn put_tuple(
    s: &[u8],
    u: &[u8],
    w: &[u8],
    i: usize,
    index: usize,
    parent: usize,
    out: &mut [u8],
    at: usize,
) -> usize
    requires { (8 * i + 8 ≤ length w.now) × (at + length (value_of s.now u.now w.now i) + 8 ≤ length out.old) }
    ensures { Wrote at (tuple_bytes (tuple_with s.now u.now w.now i index parent)) out.old result out.new }
{
    let p1 = put_little_endian(out, at, 2, number(w, 8 * i + 2));
    let p2 = put_little_endian(out, p1, 2, index);
    let p3 = put_little_endian(out, p2, 2, parent);
    let p4 = put_byte(out, p3, 1);
    put_value(s, u, w, i, out, p4)
}

// The n items of w as tuples, from `at` on, up to one where looking back took longer than a book would; known: what is remembered of the items before.
fn emit_items(
    s: &[u8],
    u: &[u8],
    w: &[u8],
    n: usize,
    known: &mut [usize],
    out: &mut [u8],
    at: usize,
) -> Part
    requires n_in_bounds { (8 * n ≤ length w.now) × (length w.now < 524288) × Known w.now 0 known.old }
    requires room { at + length (bytes_to s.now u.now w.now 0 n) ≤ length out.old }
    ensures { Begun s.now u.now w.now n at out.old result out.new }
{
    let mut p = at;
    let mut steps = 0;
    for i in 0..n {
        if 8192 + 32 * i < steps {
            return Part {
                count: i,
                behind: p,
            };
        }
        let x = next_numbers(w, i, known);
        p = put_tuple(s, u, w, i, x.index, x.parent, out, p);
        steps += x.steps;
    }
    Part {
        count: n,
        behind: p,
    }
}

// The items from x up to y as tuples with these numbers, from `at` on.
fn emit_numbered(
    s: &[u8],
    u: &[u8],
    w: &[u8],
    x: usize,
    y: usize,
    numbers: &[u16],
    out: &mut [u8],
    at: usize,
) -> usize
    requires x_le_y { (x ≤ y) × (8 * y ≤ length w.now) × (length w.now < 524288) × (2 * y ≤ 2 * x + length numbers.now) × Numbered w.now x y numbers.now }
    requires room { at + length (bytes_to s.now u.now w.now x y) ≤ length out.old }
    ensures { Wrote at (bytes_to s.now u.now w.now x y) out.old result out.new }
{
    let mut p = at;
    for i in x..y {
        let k = 2 * (i - x);
        let index = usize::from(numbers[k]);
        let parent = usize::from(numbers[k + 1]);
        p = put_tuple(s, u, w, i, index, parent, out, p);
    }
    p
}

// Where a block of items from x on ends.
fn block_end(x: usize, n: usize) -> usize
    requires { x < n }
    ensures { (x < result) × (result ≤ n) × (result ≤ x + 512) }
{
    if n - x < 512 { n } else { x + 512 }
}

// The items from x up to n as tuples, from `at` on, block by block. The table of parents has room for each depth of the longest record.
fn emit_blocks(s: &[u8], u: &[u8], w: &[u8], x: usize, n: usize, out: &mut [u8], at: usize) -> usize
    requires x_le_n { (x ≤ n) × (8 * n ≤ length w.now) × (length w.now < 524288) }
    requires room { at + length (bytes_to s.now u.now w.now x n) ≤ length out.old }
    ensures { Wrote at (bytes_to s.now u.now w.now x n) out.old result out.new }
{
    let mut parents = [0u16; 12500];
    let mut numbers = [0u16; 1024];
    know_parents(w, x, &mut parents);
    let mut p = at;
    let mut i = x;
    // A `while`: it goes on by blocks.
    while i < n {
        let y = block_end(i, n);
        number_block(w, i, y, &mut parents, &mut numbers);
        p = emit_numbered(s, u, w, i, y, &numbers, out, p);
        i = y;
    }
    p
}

// The n items of w as tuples, from `at` on; s the dataset, u the update.
pub fn emit(s: &[u8], u: &[u8], w: &[u8], n: usize, out: &mut [u8], at: usize) -> usize
    requires n_in_bounds { (8 * n ≤ length w.now) × (length w.now < 524288) × (length s.now ≤ 16777216) × (length u.now ≤ 16777216) }
    requires room { at + size_of (its s.now u.now w.now 0 n) ≤ length out.old }
    ensures { Emitted s.now u.now w.now n at out.old result out.new }
{
    let mut known = [0usize; 24];
    let begun = emit_items(s, u, w, n, &mut known, out, at);
    let x = begun.count;
    let p = begun.behind;
    if n <= x {
        return p;
    }
    emit_blocks(s, u, w, x, n, out, p)
}
