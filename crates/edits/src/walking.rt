// The walk over the items of a run, in blocks as far as they go.
ghost use Rattle.std.specs.Prelude.{◌≡◌, ◌*◌, ◌≤◌, ◌<◌, length};
ghost use Rattle.edits.specs.Walks.{Goes, Walked};

use crate::block::weigh;
use items::{number, twin};

// The item that a walk has come to, how many items of the code it has passed, and where the last of them is: it is number `nth` from item `mark` on.
#[derive(Clone, Copy)]
pub struct Reach {
    pub at: usize,
    pub count: usize,
    pub mark: usize,
    pub nth: usize,
}

// Past all whole blocks before number k of this code in which the run does not end.
pub fn past_blocks(w: &[u8], start: usize, n: usize, depth: usize, code: usize, k: usize) -> Reach
    requires { (8 * n ≤ length w.now) × (start ≤ n) × (depth < 65536) × (code < 65536) × (1 ≤ k) × (k ≤ 65536) }
    ensures { Goes w.now n depth code start k result }
{
    let mut at = start;
    let mut count: usize = 0;
    let mut mark = start;
    let mut nth: usize = 0;
    // A `while`: it walks in steps of 64.
    while at + 64 <= n {
        let t = weigh(w, at, depth, code);
        if k <= count + t {
            return Reach {
                at,
                count,
                mark,
                nth,
            };
        }
        if 0 < t {
            mark = at;
            nth = t;
        }
        count += t;
        at += 64;
    }
    Reach {
        at,
        count,
        mark,
        nth,
    }
}

// To number k of this code, which is counted then, or to the end of the run.
pub fn walk(w: &[u8], start: usize, n: usize, depth: usize, code: usize, k: usize) -> Reach
    requires { (8 * n ≤ length w.now) × (start ≤ n) × (depth < 65536) × (code < 65536) × (1 ≤ k) × (k ≤ 65536) }
    ensures { Walked w.now n depth code start k result }
{
    let b = past_blocks(w, start, n, depth, code, k);
    let mut count = b.count;
    let mut mark = b.mark;
    let mut nth = b.nth;
    for at in b.at..n {
        if number(w, 8 * at) < depth {
            return Reach {
                at,
                count,
                mark,
                nth,
            };
        }
        let t = twin(w, at, depth, code);
        if count + t == k {
            return Reach {
                at,
                count: k,
                mark,
                nth,
            };
        }
        if 0 < t {
            mark = at;
            nth = t;
        }
        count += t;
    }
    Reach {
        at: n,
        count,
        mark,
        nth,
    }
}
