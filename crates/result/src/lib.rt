// The records of an update's result behind the third, straight from dataset and update into the output.
#![tactic(auto)]

ghost use Rattle.std.specs.Prelude.{◌≡◌, true, ◌≤◌, ◌<◌, length};
ghost use Rattle.base.specs.Walk.{Got};
ghost use Rattle.base.specs.Lists.{Each};
ghost use Rattle.skeleton.specs.File.{records_from};
ghost use Rattle.rules.specs.Outcome.{done};
ghost use Rattle.sequence.specs.Keyed.{Ordered};
ghost use Rattle.updates.specs.Acts.{chart};
ghost use Rattle.updates.specs.Streamed.{verdicts};
ghost use Rattle.sound.specs.Sound.{SoundRec};
ghost use Rattle.keys.specs.Listed.{keys_from};
ghost use Rattle.keys.specs.Table.{Laid};
ghost use Rattle.stock.specs.Stock.{stock_from};
ghost use Rattle.version.specs.Areas.{flag_area};
ghost use Rattle.history.specs.Flags.{Flags};
ghost use Rattle.history.specs.Ready.{Ready};
ghost use Rattle.sorting.specs.Indices.{Indices};
ghost use Rattle.composing.specs.Tied.{TiedFrom};
ghost use Rattle.result.specs.Pass.{Clear};
ghost use Rattle.result.specs.Composed.{ComposedBy, Again};

use crate::pass::Progress;
use crate::walk::walk_kind;
use sorting::limits::Limits;

pub mod pass;
pub mod turn;
pub mod walk;

// The length of a result and the count of its records behind the third.
#[derive(Clone, Copy)]
pub struct Composed {
    pub length: usize,
    pub count: usize,
}

// All of them, kind by kind, from `at` on, in one pass. At the end of the output stand the indices that lim tells, until the records reach them. A dry pass
// begins behind the output's end, so that it only tests and measures. In place of the result, the number of its record with a loose reference (11).
fn pass_over(
    d: &[u8],
    ds: usize,
    t: &[u32],
    n: usize,
    map: &[u8],
    u: &[u8],
    us: usize,
    work: &mut [u8],
    out: &mut [u8],
    at: usize,
    lim: Limits,
) -> Result<Composed, usize>
    requires ready { Ready d.now ds u.now us × Laid d.now ds t.now n map.now × (400000 ≤ length work.old) × (at ≤ 33854429) × Each SoundRec (stock_from d.now ds) × Ordered chart 1 (stock_from d.now ds) }
    requires accepted { (verdicts (stock_from d.now ds) (records_from u.now us).items ≡ done tt) × Flags (keys_from u.now us) (flag_area work.old) × Indices d.now ds u.now us lim out.old × TiedFrom d.now ds ds }
    requires dry { (lim.dry ≡ true → length out.old < at) × Clear d.now ds u.now us lim }
    ensures { ComposedBy (stock_from d.now ds) (records_from u.now us).items at out.old result out.new × Again u.now us work.new result }
{
    let mut g = Progress {
        to: at,
        made: 0,
        next: ds,
    };
    for q in 1..5 {
        g = walk_kind(d, ds, t, n, map, u, us, q, work, out, g, lim)?;
    }
    Ok(Composed {
        length: g.to,
        count: g.made,
    })
}

// Whether records of so many bytes may reach into indices that begin at `old` of so many bytes of an output, and these are so long that much would be
// looked for without them.
fn is_tight(bytes: usize, old: usize, all: usize) -> bool
    requires { old ≤ all }
    ensures { result ≡ true → all < 33554432 }
{
    all < 33554432 && 32768 < all - old && old < bytes
}

// All of them where they may reach into the indices: what they name is tested by a dry pass first, which leaves the indices whole, and then they are written.
fn compose_tight(
    d: &[u8],
    ds: usize,
    t: &[u32],
    n: usize,
    map: &[u8],
    u: &[u8],
    us: usize,
    work: &mut [u8],
    out: &mut [u8],
    at: usize,
    lim: Limits,
) -> Result<Composed, usize>
    requires ready { Ready d.now ds u.now us × Laid d.now ds t.now n map.now × (400000 ≤ length work.old) × (at ≤ 299997) × Each SoundRec (stock_from d.now ds) × Ordered chart 1 (stock_from d.now ds) }
    requires accepted { (verdicts (stock_from d.now ds) (records_from u.now us).items ≡ done tt) × Flags (keys_from u.now us) (flag_area work.old) × Indices d.now ds u.now us lim out.old × TiedFrom d.now ds ds }
    requires short { length out.old < 33554432 }
    ensures { ComposedBy (stock_from d.now ds) (records_from u.now us).items at out.old result out.new }
{
    let old = lim.old;
    let new = lim.new;
    let test = Limits {
        old,
        new,
        dry: true,
        sure: false,
    };
    let dry = pass_over(d, ds, t, n, map, u, us, work, out, at + 33554432, test)?;
    let length = dry.length - 33554432;
    if out.len() < length {
        return Ok(Composed {
            length,
            count: dry.count,
        });
    }
    let write = Limits {
        old,
        new,
        dry: false,
        sure: true,
    };
    pass_over(d, ds, t, n, map, u, us, work, out, at, write)
}

// All of them, kind by kind, from `at` on. At the end of the output stand the indices that lim tells, until the records reach them.
pub fn compose(
    d: &[u8],
    ds: usize,
    t: &[u32],
    n: usize,
    map: &[u8],
    u: &[u8],
    us: usize,
    work: &mut [u8],
    out: &mut [u8],
    at: usize,
    lim: Limits,
) -> Result<Composed, usize>
    requires ready { Ready d.now ds u.now us × Laid d.now ds t.now n map.now × (400000 ≤ length work.old) × (at ≤ 299997) × Each SoundRec (stock_from d.now ds) × Ordered chart 1 (stock_from d.now ds) }
    requires accepted { (verdicts (stock_from d.now ds) (records_from u.now us).items ≡ done tt) × Flags (keys_from u.now us) (flag_area work.old) × Indices d.now ds u.now us lim out.old × TiedFrom d.now ds ds }
    ensures { ComposedBy (stock_from d.now ds) (records_from u.now us).items at out.old result out.new }
{
    let old = lim.old;
    let new = lim.new;
    if is_tight(2 * (d.len() + u.len()), old, out.len()) {
        return compose_tight(d, ds, t, n, map, u, us, work, out, at, lim);
    }
    let once = Limits {
        old,
        new,
        dry: false,
        sure: false,
    };
    pass_over(d, ds, t, n, map, u, us, work, out, at, once)
}
