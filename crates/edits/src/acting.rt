// The acts of an update by two functions that call each other: one does an act, the other the run of acts of one parent. Siblings take no stack.
ghost use Rattle.std.specs.Prelude.{List, ℕ, ◌+◌, ◌-◌, ◌*◌, ◌≤◌, ◌<◌, length};
ghost use Rattle.items.specs.Tuples.{Tuples};
ghost use Rattle.edits.specs.Says.{ActSays, RunSays};

use crate::single::{Deed, perform};
use base::Fault;

// The act at `at`, of this place, and the acts on its children: the offset of the update's next tuple, its place, and how many items there are then, or the
// fault at the tuple that is refused.
#[cycle(act_acts)]
pub fn act(
    u: &[u8],
    end: usize,
    at: usize,
    place: usize,
    w: &mut [u8],
    n: usize,
    start: usize,
    depth: usize,
    barren: bool,
) -> Result<(usize, usize, usize), Fault>
    requires { (Tuples u.now end at) × (at < end) × (end ≤ length u.now) × (end ≤ 16777216) × (place ≤ at + 1)
        × (start ≤ n) × (depth ≤ start) × (8 * n + (end - at) ≤ length w.old) × (length w.old < 524288) }
    ensures { (s : List ℕ) → ActSays s u.now end at place w.old n start depth barren w.new result }
{
    let first = tree::tuple::behind(u, at);
    let full = at + 8 < first;
    let deed = perform(u, at, full, w, n, start, depth, barren);
    match deed {
        Deed::Not(k) => Err(Fault {
            number: k,
            field: 0,
            tuple: place,
        }),
        Deed::Gone(m) => Ok((first, place + 1, m)),
        Deed::Lead(i, m) => acts(
            u,
            end,
            first,
            place,
            place + 1,
            w,
            m,
            i + 1,
            depth + 1,
            full,
        ),
    }
}

// The acts of one parent, from `at` on, on the run of items of this depth that starts at `start`; barren: the parent has a value.
// They answer as one act does.
#[cycle(act_acts)]
pub fn acts(
    u: &[u8],
    end: usize,
    at: usize,
    parent: usize,
    place: usize,
    w: &mut [u8],
    n: usize,
    start: usize,
    depth: usize,
    barren: bool,
) -> Result<(usize, usize, usize), Fault>
    requires { (Tuples u.now end at) × (end ≤ length u.now) × (end ≤ 16777216) × (place ≤ at + 1)
        × (start ≤ n) × (depth ≤ start) × (8 * n + (end - at) ≤ length w.old) × (length w.old < 524288) }
    ensures { (s : List ℕ) → RunSays s u.now end at parent place w.old n start depth barren w.new result }
{
    let mut a = at;
    let mut q = place;
    let mut m = n;
    // A `while`: an act goes on behind the acts on its children.
    while a < end {
        if items::number(u, a + 4) != parent {
            return Ok((a, q, m));
        }
        (a, q, m) = act(u, end, a, q, w, m, start, depth, barren)?;
    }
    Ok((a, q, m))
}
