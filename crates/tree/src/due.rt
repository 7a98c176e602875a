// Whether every tuple of a field has the index that is due to it, where a search for each would take long: the codes and parents of some two thousand
// tuples at a time are put in order in a book with a tally for each, and all tuples up to them are held against it. That the book is in order is not
// proved: without that, the answer is no.
ghost use Rattle.std.specs.Prelude.{◌≡◌, true, ℕ, ◌+◌, ◌≤◌, ◌<◌, length, get_or};
ghost use Rattle.tree.specs.Source.{two};
ghost use Rattle.tree.specs.Known.{Whole, Reach};
ghost use Rattle.tree.specs.Due.{AllDue, keyed, Tallied, Joins, Blocked};

use crate::tuple::{behind, number};
use book::book::page;
use book::order::sort;
use fields::le16;

// How many tuples a book took, and the offset behind them.
#[derive(Clone, Copy)]
pub struct Block {
    pub count: usize,
    pub behind: usize,
}

// The code and the parent of the tuple in one number.
fn key_at(f: &[u8], at: usize) -> u64
    requires { at + 8 ≤ length f.now }
    ensures { (result ≡ keyed (two f.now at) (two f.now (at + 4))) × (two f.now at < 65536) }
{
    let code = le16(f, at);
    let parent = le16(f, at + 4);
    parent as u64 * 65536 + code as u64
}

// Counts the tuple, if the book has its code and parent; no where its index is not the next one, or where that is asked for and cannot be told.
fn join(f: &[u8], at: usize, b: &[u64], t: &mut [u16], asked: bool) -> bool
    requires { (at + 8 ≤ length f.now) × (Reach f.now 0 at) × (0 < length b.now) × Tallied f.now b.now t.old at }
    ensures { result ≡ true → Joins f.now b.now t.new at (asked ≡ true) }
{
    let key = key_at(f, at);
    let j = page(b, key);
    if b[j] != key {
        return !asked;
    }
    if t.len() <= j {
        return false;
    }
    let index = le16(f, at + 2);
    if usize::from(index) != usize::from(t[j]) + 1 {
        return false;
    }
    t[j] = index;
    true
}

// Whether each tuple up to y has its due index, where those up to x have: all are held against the book.
fn held(f: &[u8], x: usize, y: usize, b: &[u64], t: &mut [u16]) -> bool
    requires { (Whole f.now 0) × (y ≤ length f.now) × (0 < length b.now) × AllDue f.now x }
    ensures { result ≡ true → AllDue f.now y }
{
    t.fill(0);
    let mut at = 0;
    while at < y {
        if !join(f, at, b, t, x <= at) {
            return false;
        }
        at = behind(f, at);
    }
    true
}

// The same, for a book that is not yet in order.
fn block_due(f: &[u8], x: usize, y: usize, b: &mut [u64], t: &mut [u16]) -> bool
    requires { (Whole f.now 0) × (y ≤ length f.now) × (0 < length b.old) × AllDue f.now x }
    ensures { result ≡ true → AllDue f.now y }
{
    sort(b);
    held(f, x, y, b, t)
}

// The tuples from x on into the book, as many as it takes.
fn gather(f: &[u8], x: usize, b: &mut [u64]) -> Block
    requires { (Whole f.now x) × (x < length f.now) × (0 < length b.old) }
    ensures { Blocked f.now x (length b.old) result }
{
    let mut at = x;
    let mut k = 0;
    // A `while`: tuples are as long as their values, and a full book ends it too.
    while at < f.len() && k < b.len() {
        b[k] = key_at(f, at);
        at = behind(f, at);
        k += 1;
    }
    Block {
        count: k,
        behind: at,
    }
}

// Whether each tuple has its due index, by a book b with the tallies t.
fn due_by(f: &[u8], b: &mut [u64], t: &mut [u16]) -> bool
    requires { (Whole f.now 0) × (0 < length b.old) }
    ensures { result ≡ true → AllDue f.now (length f.now) }
{
    let mut x = 0;
    while x < f.len() {
        let g = gather(f, x, b);
        let k = g.count;
        let y = g.behind;
        if !block_due(f, x, y, &mut b[..k], t) {
            return false;
        }
        x = y;
    }
    true
}

// The same, with a book of its own.
fn all_due(f: &[u8]) -> bool
    requires { Whole f.now 0 }
    ensures { result ≡ true → AllDue f.now (length f.now) }
{
    let mut b = [0u64; 2048];
    let mut t = [0u16; 2048];
    due_by(f, &mut b, &mut t)
}

// Whether many codes come after a larger one, so that they would have to be searched for.
fn many_fall(f: &[u8]) -> bool
    requires { Whole f.now 0 }
{
    let mut at = 0;
    let mut top: usize = 0;
    let mut fallen: usize = 0;
    while at < f.len() {
        let code = number(f, at);
        if code < top {
            fallen += 1;
        }
        if 16 <= fallen {
            return true;
        }
        top = top.max(code);
        at = behind(f, at);
    }
    false
}

// Whether each tuple has its due index, asked for where the whole rule is and where it may spare time: yes is certain. The 127 tuples of a shorter field
// are searched sooner than a book is made.
pub fn surely_due(f: &[u8], whole: bool) -> bool
    requires { Whole f.now 0 }
    ensures { result ≡ true → AllDue f.now (length f.now) }
{
    if !whole || f.len() < 1024 || !many_fall(f) {
        return false;
    }
    all_due(f)
}
