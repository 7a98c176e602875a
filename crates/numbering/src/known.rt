// The index and the parent of each item in turn, by what is remembered of the items before it.
ghost use Rattle.std.specs.Prelude.{◌≡◌, List, ℕ, ◌+◌, ◌*◌, ◌≤◌, ◌<◌, length};
ghost use Rattle.items.specs.Items.{depth_of, code_of};
ghost use Rattle.numbering.specs.Numbers.{parent_before, twins_before};
ghost use Rattle.numbering.specs.Known.{KnownTo, Known, NumbersOf};

use crate::back::{parent_before, twins_before};
use items::item::number;

// ATIX and PAIX of an item, and over how many items they were looked for.
#[derive(Clone, Copy)]
pub struct Numbers {
    pub index: usize,
    pub parent: usize,
    pub steps: usize,
}

// The place of the parent of item i, which has this depth; 0 for none.
fn parent_of(w: &[u8], i: usize, depth: usize, known: &[usize]) -> usize
    requires { (8 * i ≤ length w.now) × Known w.now i known.now }
    ensures { (result ≡ parent_before w.now depth i) × (result ≤ i) }
{
    if depth < 8 {
        known[3 * depth]
    } else {
        parent_before(w, i, depth)
    }
}

// How many items of this code and depth stand before item i under its parent.
fn twins_of(w: &[u8], i: usize, depth: usize, code: usize, known: &[usize]) -> usize
    requires { (8 * i ≤ length w.now) × Known w.now i known.now }
    ensures { (result ≡ twins_before w.now depth code i) × (result ≤ i) }
{
    if depth < 8 && known[3 * depth + 1] == code {
        return known[3 * depth + 2];
    }
    twins_before(w, i, depth, code)
}

// Over how many items the twins of item i, whose parent has this place, are looked for.
fn steps_of(i: usize, depth: usize, code: usize, parent: usize, known: &[usize]) -> usize
    requires { (length known.now ≡ 24) × (parent ≤ i) }
    ensures { result ≤ i }
{
    if depth < 8 && known[3 * depth + 1] == code {
        return 0;
    }
    i - parent
}

// Item i is the parent at the depths from `deeper` on, and no twins stand there yet.
fn begin_runs(known: &mut [usize], i: usize, deeper: usize)
    requires { (length known.old ≡ 24) × (i < 65536) }
    ensures { (w : List ℕ) → depth_of w i < deeper → KnownTo deeper w (i + 1) known.old → Known w (i + 1) known.new }
{
    for d in deeper..8 {
        known[3 * d] = i + 1;
        known[3 * d + 2] = 0;
    }
}

// Item i, of this depth and code, with so many twins before it, is remembered.
fn remember(known: &mut [usize], i: usize, depth: usize, code: usize, twins: usize)
    requires { (length known.old ≡ 24) × (i < 65536) × (twins ≤ i) }
    ensures { (w : List ℕ) → depth ≡ depth_of w i → code ≡ code_of w i → twins ≡ twins_before w depth code i → Known w i known.old → Known w (i + 1) known.new }
{
    if depth < 8 {
        known[3 * depth + 1] = code;
        known[3 * depth + 2] = twins + 1;
        begin_runs(known, i, depth + 1);
    }
}

// The numbers of item i, which is then remembered.
pub fn next_numbers(w: &[u8], i: usize, known: &mut [usize]) -> Numbers
    requires { (8 * i + 8 ≤ length w.now) × (length w.now < 524288) × Known w.now i known.old }
    ensures { NumbersOf w.now i result × Known w.now (i + 1) known.new }
{
    let depth = number(w, 8 * i);
    let code = number(w, 8 * i + 2);
    let twins = twins_of(w, i, depth, code, known);
    let parent = parent_of(w, i, depth, known);
    let steps = steps_of(i, depth, code, parent, known);
    remember(known, i, depth, code, twins);
    Numbers {
        index: twins + 1,
        parent,
        steps,
    }
}
