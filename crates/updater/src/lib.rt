// The updater: it builds the result of a dataset and an update in a third slice.
#![tactic(auto)]

pub mod front;

ghost use Rattle.std.specs.Prelude.{◌≡◌, ◌≤◌, length};
ghost use Rattle.rules.specs.Outcome.{done};
ghost use Rattle.promises.specs.Promise.{Updates};
ghost use Rattle.updates.specs.Streamed.{verdicts};
ghost use Rattle.keys.specs.Listed.{keys_from};
ghost use Rattle.keys.specs.Table.{Laid};
ghost use Rattle.stock.specs.Stock.{stock_from};
ghost use Rattle.sorting.specs.Indices.{Indices};
ghost use Rattle.updater.specs.Stages.{sent_from, Legible, Tested, TestedIf, Fits, Begun, Acted, Built};
ghost use Rattle.version.specs.Areas.{flag_area};
ghost use Rattle.history.specs.Flags.{Flags};

use front::{found, front_length, general, put_front};
use history::judging::judge;
use incoming::walk::check_update;
use keys::order::ordered;
use keys::table::spread;
use memory::clearing::{zero, zero_from};
use reader::read;
use result::compose;
use rules::Answer;
use sorting::limits::{Limits, lay_both};
use writer::measure;

// Numbers 11, 14 and 13 of the result, whose records behind the third are written from `front` on.
fn finish(
    f: &[u8],
    ds: usize,
    t: &[u32],
    n: usize,
    map: &[u8],
    u: &[u8],
    us: usize,
    front: usize,
    out: &mut [u8],
    work: &mut [u8],
    lim: Limits,
) -> Answer
    requires begun { Begun f.now u.now ds us front × Laid f.now ds t.now n map.now × (400000 ≤ length work.old) }
    requires accepted { (verdicts (stock_from f.now ds) (sent_from u.now us) ≡ done tt) × Flags (keys_from u.now us) (flag_area work.old) × Indices f.now ds u.now us lim out.old }
    ensures { Acted f.now u.now ds us front (length out.old) (length work.old) result out.new }
{
    let made = match compose(f, ds, t, n, map, u, us, work, out, front, lim) {
        Ok(made) => made,
        Err(rec) => return Answer::refused(11, 3, rec),
    };
    if 16777216 < made.length {
        return Answer::refused(14, 3, 0);
    }
    if out.len() < made.length {
        return Answer::refused(13, 3, 0);
    }
    let count = 3 + made.count;
    Answer::done(made.length, count)
}

// The verdicts on the update's records, and then the result's records behind the third. Until these reach it, the output's end holds indices to find
// records by.
fn act(
    f: &[u8],
    ds: usize,
    u: &[u8],
    us: usize,
    front: usize,
    out: &mut [u8],
    work: &mut [u8],
) -> Answer
    requires { Begun f.now u.now ds us front × (400000 ≤ length work.old) }
    ensures { Acted f.now u.now ds us front (length out.old) (length work.old) result out.new }
{
    let mut table = [ds as u32; 4096];
    let mut map = [0u8; 32769];
    let stride = (f.len() - ds) / 131072 + 1;
    let n = spread(f, ds, stride, &mut table, &mut map);
    let ascend = ordered(&map);
    let lim = lay_both(f, ds, ascend, u, us, out);
    match judge(f, ds, &table, n, &map, u, us, out, lim, work) {
        Ok(()) => finish(f, ds, &table, n, &map, u, us, front, out, work, lim),
        Err(r) => Answer::refused(r.fault.number, 2, r.rec),
    }
}

// A dataset and an update that have passed one by one: numbers 8 and 12 of the general record, and then all that its records do.
fn apply(f: &[u8], u: &[u8], us: usize, out: &mut [u8], work: &mut [u8]) -> Answer
    requires { Fits f.now u.now us × (400000 ≤ length work.old) }
    ensures { Built f.now u.now (length out.old) (length work.old) result out.new }
{
    let first = found(f, 0);
    let old = found(f, first.end);
    let third = found(f, old.end);
    let sent = found(u, 0);
    let new = found(u, sent.end);
    match general(f, old, u, new) {
        Ok(n) => {
            let front = front_length(f, first, n, third);
            let ds = third.end;
            let a = act(f, ds, u, us, front, out, work);
            if a.number == 0 {
                put_front(f, first, old, third, u, new, out);
            }
            a
        }
        Err(fault) => Answer::refused(fault.number, 2, 2),
    }
}

// The update of a dataset that has passed its tests: the update's first pass, and then the rest.
fn proceed(f: &[u8], u: &[u8], out: &mut [u8], work: &mut [u8]) -> Answer
    requires { Tested f.now × (length u.now ≤ 16777216) × (400000 ≤ length work.old) }
    ensures { Built f.now u.now (length out.old) (length work.old) result out.new }
{
    match check_update(u) {
        Ok(us) => apply(f, u, us, out, work),
        Err(r) => Answer::refused(r.fault.number, 2, r.rec),
    }
}

// The update of a dataset that the reader has read: number 12 of the dataset, and then the rest.
fn prepare(f: &[u8], u: &[u8], out: &mut [u8], work: &mut [u8]) -> Answer
    requires { Legible f.now × (length u.now ≤ 16777216) × (400000 ≤ length work.old) }
    ensures { Built f.now u.now (length out.old) (length work.old) result out.new }
{
    match measure(f) {
        Ok(_) => proceed(f, u, out, work),
        Err(rec) => Answer::refused(12, 1, rec),
    }
}

// The answer, and at the front of the output the result. After a refusal anything may stand in the output and the workspace.
fn build(tested: bool, f: &[u8], u: &[u8], out: &mut [u8], work: &mut [u8]) -> Answer
    requires { TestedIf tested f.now }
    ensures { Built f.now u.now (length out.old) (length work.old) result out.new }
{
    if work.len() < 400000 {
        return Answer::refused(15, 0, 0);
    }
    if 16777216 < f.len() {
        return Answer::refused(14, 1, 0);
    }
    if 16777216 < u.len() {
        return Answer::refused(14, 2, 0);
    }
    if tested {
        return proceed(f, u, out, work);
    }
    let a = read(f);
    if a.number != 0 {
        return a;
    }
    prepare(f, u, out, work)
}

// As `update`; a dataset that is known to pass its own tests, since the updater wrote it, is not tested again.
pub fn update_tested(
    tested: bool,
    dataset: &[u8],
    update: &[u8],
    out: &mut [u8],
    work: &mut [u8],
) -> Answer
    requires { TestedIf tested dataset.now }
    ensures { Updates dataset.now update.now (length out.old) (length work.old) result out.new work.new }
{
    let a = build(tested, dataset, update, out, work);
    zero(work);
    if a.number != 0 {
        zero(out);
        return a;
    }
    zero_from(out, a.length);
    a
}

// Updates a dataset: the answer, every byte of the output and every byte of the workspace are those of the rules, for any bytes and any lengths.
pub fn update(dataset: &[u8], update: &[u8], out: &mut [u8], work: &mut [u8]) -> Answer
    ensures { Updates dataset.now update.now (length out.old) (length work.old) result out.new work.new }
{
    update_tested(false, dataset, update, out, work)
}
