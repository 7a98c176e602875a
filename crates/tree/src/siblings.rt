// The index that is due to an entry: one more than the earlier entries of its run with its code.
ghost use Rattle.std.specs.Prelude.{◌≡◌, true, false, ◌+◌, ◌≤◌, ◌<◌, length, ltb};
ghost use Rattle.base.specs.Choice.{pick};
ghost use Rattle.tree.specs.Source.{two, hit, count};
ghost use Rattle.tree.specs.Known.{Whole, Reach, Fresh, Seen};
ghost use Rattle.tree.specs.Due.{AllDue, due_for};

use crate::tuple;

// 1 where the tuple has this code and parent, else 0.
pub fn twin(b: &[u8], at: usize, code: usize, parent: usize) -> usize
    requires { at + 6 ≤ length b.now }
    ensures { (result ≡ hit b.now at code parent) × (result ≤ 1) }
{
    if tuple::number(b, at) != code {
        return 0;
    }
    if tuple::number(b, at + 4) != parent {
        return 0;
    }
    1
}

// How many tuples from `start` up to `end` have this code and parent.
pub fn twins(b: &[u8], start: usize, end: usize, code: usize, parent: usize) -> usize
    requires { (Whole b.now start) × (end ≤ length b.now) }
    ensures { (result ≡ count b.now start end code parent) × (result ≤ end) }
{
    let mut n: usize = 0;
    let mut i = start;
    while i < end {
        n += twin(b, i, code, parent);
        i = tuple::behind(b, i);
    }
    n
}

// The index due at `at` in the run of this parent from `start` on, where no earlier entry of the run has a code above `top`, and `many` have
// that one: so only a code that comes after a larger one is searched for. No index is due where only parents are asked for: 0.
fn counted_index(
    b: &[u8],
    start: usize,
    at: usize,
    code: usize,
    parent: usize,
    top: usize,
    many: usize,
    whole: bool,
) -> usize
    requires { (Whole b.now start) × (Reach b.now 0 start) × (start ≤ at) × (at < length b.now) × (Fresh b.now start parent) × (whole ≡ true → Seen b.now parent at top many) }
    ensures { result ≡ due_for false whole (count b.now 0 at code parent + 1) }
{
    if !whole {
        return 0;
    }
    if code > top {
        return 1;
    }
    if top == code {
        return many + 1;
    }
    twins(b, start, at, code, parent) + 1
}

// The same of the tuple at `at`, whose parent this is; sure: each tuple of the field has its due index, so that this one's own is it.
pub fn due_index(
    b: &[u8],
    start: usize,
    at: usize,
    parent: usize,
    top: usize,
    many: usize,
    whole: bool,
    sure: bool,
) -> usize
    requires running { (Whole b.now start) × (Reach b.now 0 start) × (start ≤ at) × (at < length b.now) × (Fresh b.now start parent) × (whole ≡ true → Seen b.now parent at top many) }
    requires standing { (Whole b.now at) × (Reach b.now 0 at) × (two b.now (at + 4) ≡ parent) × (sure ≡ true → AllDue b.now (length b.now)) }
    ensures { result ≡ due_for sure whole (count b.now 0 at (two b.now at) parent + 1) }
{
    if sure {
        return tuple::number(b, at + 2);
    }
    let code = tuple::number(b, at);
    counted_index(b, start, at, code, parent, top, many, whole)
}

// How many entries have the larger code, where the entry of the new code has this index.
pub fn many_with(top: usize, many: usize, code: usize, index: usize) -> usize
    ensures { result ≡ pick (ltb code top) many index }
{
    if code < top { many } else { index }
}
