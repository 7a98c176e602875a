// One act of an update on the items, without the acts on its children.
ghost use Rattle.std.specs.Prelude.{◌≡◌, List, Bool, ℕ, ◌+◌, ◌-◌, ◌*◌, ◌≤◌, ◌<◌, length, get_or};
ghost use Rattle.forest.specs.Forest.{valued};
ghost use Rattle.items.specs.Items.{text_from};
ghost use Rattle.edits.specs.Search.{gone_count, gone_out};
ghost use Rattle.edits.specs.Says.{DeedSays};

use crate::search::{addressed, is_beside, run_end, seat};
use items::number;

// What an act by itself comes to: refused with a number; a delete that leaves so many items; or the item whose children's acts come next, of so many.
// An enum of its own: a `Result` of an `Option` would nest these three outcomes.
#[derive(Clone, Copy)]
pub enum Deed {
    Not(u8),
    Gone(usize),
    Lead(usize, usize),
}

// Takes item i out, with what is below it; how many are left.
pub fn remove(w: &mut [u8], n: usize, i: usize, depth: usize) -> usize
    requires { (8 * n ≤ length w.old) × (length w.old < 524288) × (i < n) × (depth ≤ i) }
    ensures { (result ≡ n - gone_count w.old n i depth) × (w.new ≡ gone_out w.old n i depth) }
{
    let j = run_end(w, i + 1, n, depth + 1);
    memory::close_gap(w, 8 * n, 8 * i, 8 * (j - i));
    n - (j - i)
}

// The insert at `at`, in the run of items that starts at `start`; barren: its parent has a value.
pub fn insert(
    u: &[u8],
    at: usize,
    w: &mut [u8],
    n: usize,
    start: usize,
    depth: usize,
    barren: bool,
) -> Deed
    requires { (get_or u.now (at + 6) 0 ≡ 1) × (at + 8 ≤ length u.now) × (at + 8 ≤ 16777216) × (8 * n + 8 ≤ length w.old) × (length w.old < 524288) × (start ≤ n) × (depth ≤ start) }
    ensures { (s : List ℕ) (q : ℕ) → DeedSays s u.now at q w.old n start depth barren w.new result }
{
    if barren {
        return Deed::Not(6);
    }
    let code = number(u, at);
    let k = number(u, at + 2);
    let Some(i) = seat(w, start, n, depth, code, k) else {
        return Deed::Not(9);
    };
    memory::open_gap(w, 8 * n, 8 * i, 8);
    items::put_item(w, i, depth, code, at + 7, 1);
    Deed::Lead(i, n + 1)
}

// The delete or the modify at `at`; full: it sends a value.
pub fn alter(
    u: &[u8],
    at: usize,
    full: bool,
    w: &mut [u8],
    n: usize,
    start: usize,
    depth: usize,
) -> Deed
    requires { (get_or u.now (at + 6) 0 ≡ 1 → ⊥) × (full ≡ valued (text_from u.now (at + 7))) × (at + 8 ≤ length u.now) × (at + 8 ≤ 16777216)
        × (8 * n ≤ length w.old) × (length w.old < 524288) × (start ≤ n) × (depth ≤ start) }
    ensures { (s : List ℕ) (q : ℕ) (barren : Bool) → DeedSays s u.now at q w.old n start depth barren w.new result }
{
    let Some(i) = addressed(u, at, w, n, start, depth) else {
        return Deed::Not(9);
    };
    if u[at + 6] == 2 {
        return Deed::Gone(remove(w, n, i, depth));
    }
    if is_beside(full, w, n, i + 1, depth + 1) {
        return Deed::Not(6);
    }
    items::put_ref(w, 8 * i + 4, at + 7, 1);
    Deed::Lead(i, n)
}

// The act at `at` by itself.
pub fn perform(
    u: &[u8],
    at: usize,
    full: bool,
    w: &mut [u8],
    n: usize,
    start: usize,
    depth: usize,
    barren: bool,
) -> Deed
    requires { (full ≡ valued (text_from u.now (at + 7))) × (at + 8 ≤ length u.now) × (at + 8 ≤ 16777216)
        × (8 * n + 8 ≤ length w.old) × (length w.old < 524288) × (start ≤ n) × (depth ≤ start) }
    ensures { (s : List ℕ) (q : ℕ) → DeedSays s u.now at q w.old n start depth barren w.new result }
{
    if u[at + 6] == 1 {
        return insert(u, at, w, n, start, depth, barren);
    }
    alter(u, at, full, w, n, start, depth)
}
