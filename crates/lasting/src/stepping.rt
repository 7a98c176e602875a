// A record in the workspace as one step of the result.
ghost use Rattle.std.specs.Prelude.{◌≡◌, ◌≤◌};
ghost use Rattle.sorting.specs.Indices.{Indices};
ghost use Rattle.composing.specs.Kept.{Kept};
ghost use Rattle.lasting.specs.Whole.{Whole};
ghost use Rattle.lasting.specs.Stays.{step_by, Stays, HeldStep, LastStep};

use crate::Step;
use crate::emitting::make_held;
use base::Fault;
use history::flags::flags_of;
use sorting::limits::Limits;
use version::Version;

// The step that a record which was made is.
pub fn step_of(made: Option<usize>) -> Step
    ensures { result ≡ step_by made }
{
    match made {
        Some(n) => Step::One(n),
        None => Step::Loose,
    }
}

// The record that v and the workspace are.
fn held_step(
    d: &[u8],
    ds: usize,
    t: &[u32],
    n: usize,
    map: &[u8],
    u: &[u8],
    us: usize,
    work: &[u8],
    v: Version,
    out: &mut [u8],
    to: usize,
    lim: Limits,
) -> Step
    requires { Whole d.now ds t.now n map.now u.now us work.now × Kept d.now u.now work.now v × (to ≤ 4611686018427387904) × Indices d.now ds u.now us lim out.old }
    ensures { HeldStep d.now ds u.now us work.now lim.sure to out.old out.new v result }
{
    let flags = flags_of(work);
    step_of(make_held(d, ds, t, n, map, u, us, flags, work, v, out, to, lim))
}

// The record that a history ends with; one stands there.
pub fn last_step(
    d: &[u8],
    ds: usize,
    t: &[u32],
    n: usize,
    map: &[u8],
    u: &[u8],
    us: usize,
    work: &[u8],
    last: Result<Option<Version>, Fault>,
    out: &mut [u8],
    to: usize,
    lim: Limits,
) -> Step
    requires { Whole d.now ds t.now n map.now u.now us work.now × Stays d.now u.now work.now last × (to ≤ 4611686018427387904) × Indices d.now ds u.now us lim out.old }
    ensures { LastStep d.now ds u.now us work.now lim.sure to out.old out.new last result }
{
    match last {
        Ok(p) => match p {
            Some(v) => held_step(d, ds, t, n, map, u, us, work, v, out, to, lim),
            None => Step::Nothing,
        },
        Err(_) => Step::Nothing,
    }
}
