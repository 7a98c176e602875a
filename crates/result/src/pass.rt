// Where the pass over a result's records is.
ghost use Rattle.std.specs.Prelude.{◌≡◌};
ghost use Rattle.result.specs.Pass.{Within, pass_after};

use lasting::Step;

// Where the result's next record begins, how many were made behind the third, and the place of the next record to look at.
#[derive(Clone, Copy)]
pub struct Progress {
    pub to: usize,
    pub made: usize,
    pub next: usize,
}

// After a step, to go on from `next`; or the number of the result's record with a loose reference (11).
pub fn after(s: Step, g: Progress, next: usize) -> Result<Progress, usize>
    requires { Within 4294967296 g }
    ensures { result ≡ pass_after s g next }
{
    match s {
        Step::Nothing => Ok(Progress {
            to: g.to,
            made: g.made,
            next,
        }),
        Step::Loose => Err(g.made + 4),
        Step::One(to) => Ok(Progress {
            to,
            made: g.made + 1,
            next,
        }),
    }
}
