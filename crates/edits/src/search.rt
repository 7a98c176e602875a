// Searches among the items.
ghost use Rattle.std.specs.Prelude.{◌≡◌, ◌+◌, ◌*◌, ◌≤◌, ◌<◌, eqb, length, IfSome};
ghost use Rattle.base.specs.Choice.{both, pick};
ghost use Rattle.items.specs.Items.{u16};
ghost use Rattle.edits.specs.Search.{found_in, place_of, end_of, behind_mark, seat_of, deeper_at};

use crate::walking::{Reach, past_blocks, walk};
use items::number;

// Number k of this code in the run of this depth from `start` on; None where there is none.
pub fn locate(
    w: &[u8],
    start: usize,
    n: usize,
    depth: usize,
    code: usize,
    k: usize,
) -> Option<usize>
    requires { (8 * n ≤ length w.now) × (start ≤ n) × (depth < 65536) × (code < 65536) × (1 ≤ k) × (k ≤ 65536) }
    ensures { result ≡ found_in n (place_of w.now start n depth code k) }
{
    let s = walk(w, start, n, depth, code, k);
    if s.count == k {
        return Some(s.at);
    }
    None
}

// Past the items of this depth or more.
pub fn run_end(w: &[u8], start: usize, n: usize, depth: usize) -> usize
    requires { (8 * n ≤ length w.now) × (depth < 65536) }
    ensures { result ≡ end_of w.now start n depth }
{
    if n <= start {
        return n;
    }
    let b = past_blocks(w, start, n, depth, 0, 65536);
    for i in b.at..n {
        if number(w, 8 * i) < depth {
            return i;
        }
    }
    n
}

// The item that the tuple at `at` names by code and index; None where there is none.
pub fn addressed(
    u: &[u8],
    at: usize,
    w: &[u8],
    n: usize,
    start: usize,
    depth: usize,
) -> Option<usize>
    requires { (at + 8 ≤ length u.now) × (8 * n ≤ length w.now) × (start ≤ n) × (depth < 65536) }
    ensures { (result ≡ found_in n (place_of w.now start n depth (u16 u.now at) (u16 u.now (at + 2)))) × IfSome result (λ i. (start ≤ i) × (i < n)) }
{
    let code = number(u, at);
    let k = number(u, at + 2);
    if k == 0 {
        return None;
    }
    locate(w, start, n, depth, code, k)
}

// Where a walk has come to the end of the run: behind the last item of the code and what is below it, or at the end, if there is none.
fn behind_last(w: &[u8], n: usize, depth: usize, code: usize, s: Reach) -> usize
    requires { (8 * n ≤ length w.now) × (s.mark ≤ n) × (s.nth ≤ 65536) × (depth + 1 < 65536) × (code < 65536) }
    ensures { result ≡ behind_mark w.now n depth code s.at s.mark s.nth }
{
    if s.nth == 0 {
        return s.at;
    }
    match locate(w, s.mark, n, depth, code, s.nth) {
        Some(j) => run_end(w, j + 1, n, depth + 1),
        // For a mark that no walk has set.
        None => n,
    }
}

// The number that a walk is to look for: with 0, more than there can be.
fn sought(k: usize) -> usize
    ensures { result ≡ pick (eqb k 0) 65536 k }
{
    if k == 0 { 65536 } else { k }
}

// Where a new item of this code goes as number k; None where there are too few for that. One walk says both.
pub fn seat(w: &[u8], start: usize, n: usize, depth: usize, code: usize, k: usize) -> Option<usize>
    requires { (8 * n + 8 ≤ length w.now) × (length w.now < 524288) × (start ≤ n) × (depth ≤ start) × (code < 65536) × (k < 65536) }
    ensures { (result ≡ found_in (n + 1) (seat_of w.now start n depth code k)) × IfSome result (λ i. (start ≤ i) × (i ≤ n)) }
{
    let asked = sought(k);
    let s = walk(w, start, n, depth, code, asked);
    if s.count == asked {
        return Some(s.at);
    }
    if s.count + 1 < k {
        return None;
    }
    Some(behind_last(w, n, depth, code, s))
}

// There is an item of this depth or more at j.
pub fn is_deeper(w: &[u8], n: usize, j: usize, depth: usize) -> bool
    requires { 8 * n ≤ length w.now }
    ensures { result ≡ deeper_at w.now n j depth }
{
    j < n && depth <= number(w, 8 * j)
}

// A value beside a child.
pub fn is_beside(full: bool, w: &[u8], n: usize, j: usize, depth: usize) -> bool
    requires { 8 * n ≤ length w.now }
    ensures { result ≡ both full (deeper_at w.now n j depth) }
{
    full && is_deeper(w, n, j, depth)
}
