// The tree rule by two functions that call each other: one reads an entry, the other its run of children. Siblings take no stack.
ghost use Rattle.std.specs.Prelude.{◌≡◌, true, false, ◌+◌, ◌<◌, length};
ghost use Rattle.base.specs.Verdict.{first_fault};
ghost use Rattle.tree.specs.Source.{two, count, said_by, run_at, entry_at, remains};
ghost use Rattle.tree.specs.Known.{Whole, Fresh, Known};
ghost use Rattle.tree.specs.Due.{AllDue};

use crate::due::surely_due;
use crate::{siblings, tuple};

// The entry of this place at `at`, and its run of children; `due` is the index that it must have. Sure: every tuple has its due index.
// Where the walk ends: the next tuple's offset and its place from 1, or the place of the tuple that breaks the rule (6).
#[cycle(entry_run)]
pub fn entry(
    b: &[u8],
    at: usize,
    place: usize,
    due: usize,
    shut: bool,
    whole: bool,
    sure: bool,
) -> Result<(usize, usize), usize>
    requires { (Known b.now (two b.now (at + 4)) at place) × (at < length b.now) × (whole ≡ true → due ≡ count b.now 0 at (two b.now at) (two b.now (at + 4)) + 1) × (sure ≡ true → AllDue b.now (length b.now)) }
    ensures { said_by result ≡ entry_at b.now whole at place shut }
{
    let first = tuple::behind(b, at);
    if tuple::breaks(b, at, due, shut, whole) {
        return Err(place);
    }
    let childless = tuple::is_closed(b, at, whole);
    run(b, first, place, place + 1, childless, whole, sure)
}

// The run of `parent` from `at` on, its first entry of this place; `shut`: that parent takes no child. Ends as an entry does.
#[cycle(entry_run)]
pub fn run(
    b: &[u8],
    at: usize,
    parent: usize,
    place: usize,
    shut: bool,
    whole: bool,
    sure: bool,
) -> Result<(usize, usize), usize>
    requires { (Known b.now parent at place) × (Fresh b.now at parent) × (sure ≡ true → AllDue b.now (length b.now)) }
    ensures { said_by result ≡ run_at b.now whole at parent place shut }
{
    let mut a = at;
    let mut q = place;
    let mut top: usize = 0;
    let mut many: usize = 0;
    while a < b.len() {
        if tuple::number(b, a + 4) != parent {
            return Ok((a, q));
        }
        let code = tuple::number(b, a);
        let due = siblings::due_index(b, at, a, parent, top, many, whole, sure);
        let (x, y) = entry(b, a, q, due, shut, whole, sure)?;
        a = x;
        q = y;
        many = siblings::many_with(top, many, code, due);
        top = top.max(code);
    }
    Ok((a, q))
}

// The rule over all tuples: that the run at the top takes them all, else the place of the first tuple that breaks the rule.
pub fn check(b: &[u8], whole: bool) -> Result<(), usize>
    requires { Whole b.now 0 }
    ensures { result ≡ first_fault (remains (length b.now) (run_at b.now whole 0 0 1 false)) }
{
    let sure = surely_due(b, whole);
    let (a, q) = run(b, 0, 0, 1, false, whole, sure)?;
    if a < b.len() { Err(q) } else { Ok(()) }
}
