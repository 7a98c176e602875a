// One kind of the result: the old records that stay, and then the inserted ones.
ghost use Rattle.std.specs.Prelude.{◌≡◌, suc, ◌≤◌};
ghost use Rattle.sequence.specs.Keyed.{Ordered};
ghost use Rattle.updates.specs.Acts.{chart};
ghost use Rattle.stock.specs.Stock.{stock_from};
ghost use Rattle.sorting.specs.Indices.{Spared};
ghost use Rattle.lasting.specs.Whole.{Whole};
ghost use Rattle.result.specs.Pass.{Within, Clear, kinds_left};
ghost use Rattle.result.specs.Side.{file_of, Reached, Stands, side_left, side_behind, Ended};

use crate::pass::Progress;
use crate::turn::turn;
use sorting::limits::Limits;

// The records of a side, in the file f, for the kind with place q: the old ones up to the first of a later kind, or all that the update inserts; or the number of
// the result's record with a loose reference (11).
pub fn walk(
    old: bool,
    f: &[u8],
    d: &[u8],
    ds: usize,
    t: &[u32],
    n: usize,
    map: &[u8],
    u: &[u8],
    us: usize,
    q: u64,
    work: &mut [u8],
    out: &mut [u8],
    from: Progress,
    lim: Limits,
) -> Result<Progress, usize>
    requires whole { Whole d.now ds t.now n map.now u.now us work.old × Ordered chart 1 (stock_from d.now ds) × Within 2147483648 from }
    requires side { (f.now ≡ file_of old d.now u.now) × Stands d.now ds u.now us q old from.next × Spared d.now ds u.now us lim from.to out.old × Clear d.now ds u.now us lim }
    ensures { Ended d.now ds u.now us (side_left d.now ds u.now us q old from.next) (side_behind d.now ds u.now us q old) 16777216 (Stands d.now ds u.now us q old) from work.old out.old work.new out.new result }
{
    let mut g = from;
    while g.next < f.len() {
        let h = turn(old, f, d, ds, t, n, map, u, us, q, work, out, g, lim)?;
        if h.next == g.next {
            return Ok(h);
        }
        g = h;
    }
    Ok(g)
}

// Both sides of the kind with place q. The next kind's old records begin where this one's end.
pub fn walk_kind(
    d: &[u8],
    ds: usize,
    t: &[u32],
    n: usize,
    map: &[u8],
    u: &[u8],
    us: usize,
    q: u64,
    work: &mut [u8],
    out: &mut [u8],
    from: Progress,
    lim: Limits,
) -> Result<Progress, usize>
    requires { Whole d.now ds t.now n map.now u.now us work.old × (q ≤ 4) × Within 1073741824 from × Ordered chart 1 (stock_from d.now ds) × Reached d.now ds q from.next × Spared d.now ds u.now us lim from.to out.old × Clear d.now ds u.now us lim }
    ensures { Ended d.now ds u.now us (kinds_left d.now ds u.now us q) (kinds_left d.now ds u.now us (suc q)) 33554432 (Reached d.now ds (suc q)) from work.old out.old work.new out.new result }
{
    let g = walk(true, d, d, ds, t, n, map, u, us, q, work, out, from, lim)?;
    let start = Progress {
        to: g.to,
        made: g.made,
        next: us,
    };
    let h = walk(false, u, d, ds, t, n, map, u, us, q, work, out, start, lim)?;
    Ok(Progress {
        to: h.to,
        made: h.made,
        next: g.next,
    })
}
