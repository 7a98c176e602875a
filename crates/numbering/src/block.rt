// The numbers of a block of items, where looking back from each would take long: parents, depths and codes of the block's items are put in order in a
// book with a tally for each, and all items up to them are counted in it. That the book is in order is not proved: what it does not tell is looked for.
ghost use Rattle.std.specs.Prelude.{◌≡◌, true, ◌+◌, ◌*◌, ◌≤◌, ◌<◌, length};
ghost use Rattle.items.specs.Items.{depth_of, code_of};
ghost use Rattle.numbering.specs.Numbers.{parent_before};
ghost use Rattle.numbering.specs.Block.{Parents, keyed, Tallied, Joined, Numbered};

use crate::back::twins_before;
use crate::parents::next_parent;
use book::book::page;
use book::order::sort;
use items::item::number;

// The parent, the depth and the code of item i in one number.
fn key_at(w: &[u8], i: usize, parent: usize) -> u64
    requires { (8 * i + 8 ≤ length w.now) × (parent < 65536) }
    ensures { (result ≡ keyed (depth_of w.now i) (code_of w.now i) parent) × (depth_of w.now i < 65536) × (code_of w.now i < 65536) }
{
    let depth = number(w, 8 * i);
    let code = number(w, 8 * i + 2);
    ((parent * 65536 + depth) * 65536 + code) as u64
}

// How many twins stand before item i, which is then counted, if the book has it; where it has not, only if that is asked for.
fn join(w: &[u8], i: usize, parent: usize, b: &[u64], t: &mut [u16], asked: bool) -> usize
    requires i_in_bounds { (8 * i + 8 ≤ length w.now) × (length w.now < 524288) × (0 < length b.now) × (length b.now ≤ length t.old) }
    requires counted { (parent ≡ parent_before w.now (depth_of w.now i) i) × (parent ≤ i) × Tallied w.now b.now t.old i }
    ensures { Joined w.now b.now t.new i (asked ≡ true) result }
{
    let key = key_at(w, i, parent);
    let j = page(b, key);
    if b[j] == key {
        let twins = usize::from(t[j]);
        t[j] = (twins + 1) as u16;
        return twins;
    }
    if !asked {
        return 0;
    }
    let depth = number(w, 8 * i);
    let code = number(w, 8 * i + 2);
    twins_before(w, i, depth, code)
}

// The items from x up to y into the book, as many as it takes.
fn gather(w: &[u8], x: usize, y: usize, parents: &mut [u16], b: &mut [u64])
    requires { (8 * y ≤ length w.now) × (length w.now < 524288) × Parents w.now x parents.old }
{
    for i in x..y {
        let parent = next_parent(w, i, parents);
        let k = i - x;
        if b.len() <= k {
            return;
        }
        b[k] = key_at(w, i, parent);
    }
}

// Counts the items before item x.
fn count_before(w: &[u8], x: usize, parents: &mut [u16], b: &[u64], t: &mut [u16])
    requires { (8 * x ≤ length w.now) × (length w.now < 524288) × (0 < length b.now) × (length b.now ≤ length t.old) × Tallied w.now b.now t.old 0 }
    ensures { Tallied w.now b.now t.new x × Parents w.now x parents.new }
{
    for i in 0..x {
        let parent = next_parent(w, i, parents);
        join(w, i, parent, b, t, false);
    }
}

// The numbers of the items from x up to y, two for each; those before x are counted.
fn number_items(
    w: &[u8],
    x: usize,
    y: usize,
    parents: &mut [u16],
    b: &[u64],
    t: &mut [u16],
    numbers: &mut [u16],
)
    requires x_le_y { (x ≤ y) × (8 * y ≤ length w.now) × (length w.now < 524288) × (0 < length b.now) × (length b.now ≤ length t.old) × (2 * y ≤ 2 * x + length numbers.old) }
    requires tallied { Tallied w.now b.now t.old x × Parents w.now x parents.old }
    ensures { Numbered w.now x y numbers.new × Parents w.now y parents.new }
{
    for i in x..y {
        let parent = next_parent(w, i, parents);
        let twins = join(w, i, parent, b, t, true);
        let k = 2 * (i - x);
        numbers[k] = (twins + 1) as u16;
        numbers[k + 1] = parent as u16;
    }
}

// The same, with a book of its own.
pub fn number_block(w: &[u8], x: usize, y: usize, parents: &mut [u16], numbers: &mut [u16])
    requires { (x ≤ y) × (8 * y ≤ length w.now) × (length w.now < 524288) × (2 * y ≤ 2 * x + length numbers.old) × Parents w.now x parents.old }
    ensures { Numbered w.now x y numbers.new × Parents w.now y parents.new }
{
    let mut b = [18446744073709551615u64; 512];
    let mut t = [0u16; 512];
    gather(w, x, y, parents, &mut b);
    sort(&mut b);
    count_before(w, x, parents, &b, &mut t);
    number_items(w, x, y, parents, &b, &mut t, numbers);
}
