// An old record on the way to the result: it is left alone, deleted, or changed by the update records that name it.
ghost use Rattle.std.specs.Prelude.{◌≡◌, false, List, ℕ, ◌+◌, ◌≤◌, length};
ghost use Rattle.base.specs.Walk.{Got};
ghost use Rattle.skeleton.specs.File.{records_from};
ghost use Rattle.skeleton.specs.Place.{between, fields_at};
ghost use Rattle.sequence.specs.Stream.{kept_of};
ghost use Rattle.updates.specs.Acts.{chart};
ghost use Rattle.stock.specs.Stock.{rec_in};
ghost use Rattle.version.specs.Areas.{flag_area};
ghost use Rattle.version.specs.Present.{FlagsKept};
ghost use Rattle.sorting.specs.Indices.{Indices};
ghost use Rattle.composing.specs.Acts.{deleted_from};
ghost use Rattle.composing.specs.Tied.{Noted};
ghost use Rattle.lasting.specs.Whole.{Whole, Old};
ghost use Rattle.lasting.specs.Step.{Stepped};
ghost use Rattle.lasting.specs.Stays.{Replayable, Replayed, SameStep, OldStep};

use crate::Step;
use crate::named::{deleted, play_named};
use crate::stepping::{last_step, step_of};
use base::Fault;
use composing::making::make_untouched;
use history::finding::load_at;
use history::flags::{flagged, flags_of};
use skeleton::directory::Shape;
use sorting::limits::Limits;
use version::Version;

// The record at p as it stands.
fn untouched(
    d: &[u8],
    ds: usize,
    u: &[u8],
    us: usize,
    p: usize,
    len: usize,
    h: Shape,
    work: &[u8],
    out: &mut [u8],
    to: usize,
    lim: Limits,
) -> Step
    requires { ((t : List ℕ) × (n : ℕ) × (map : List ℕ) × Whole d.now ds t n map u.now us work.now) × ((key : ℕ) × Old d.now ds p len h key) × (to ≤ 4611686018427387904) × Indices d.now ds u.now us lim out.old }
    ensures { SameStep d.now ds u.now us work.now lim.sure to out.old out.new p len h result }
{
    let flags = flags_of(work);
    step_of(make_untouched(u, us, flags, &d[p..p + len], h, out, to, lim))
}

// What the update records that name the key make of the record at p, or the first refusal.
fn replay(
    d: &[u8],
    u: &[u8],
    us: usize,
    p: usize,
    key: u64,
    work: &mut [u8],
    out: &[u8],
    lim: Limits,
) -> Result<Option<Version>, Fault>
    requires { Replayable d.now u.now us p key × (400000 ≤ length work.old) × Noted u.now us lim out.now }
    ensures { Replayed d.now u.now us p key work.old work.new result }
{
    let first = load_at(d, p, work);
    play_named(d, u, us, out, lim, us, key, first, work)
}

// The record at p, which no update record deletes, after those that name it.
fn played(
    d: &[u8],
    ds: usize,
    t: &[u32],
    n: usize,
    map: &[u8],
    u: &[u8],
    us: usize,
    p: usize,
    key: u64,
    work: &mut [u8],
    out: &mut [u8],
    to: usize,
    lim: Limits,
) -> Step
    requires { Whole d.now ds t.now n map.now u.now us work.old × ((len : ℕ) × (h : Shape) × Old d.now ds p len h key) × (to ≤ 4611686018427387904) × (deleted_from u.now us key ≡ false) × Indices d.now ds u.now us lim out.old }
    ensures { OldStep d.now ds u.now us work.old lim.sure to out.old out.new p key work.new result }
{
    let last = replay(d, u, us, p, key, work, out, lim);
    last_step(d, ds, t, n, map, u, us, work, last, out, to, lim)
}

// The record at p, of len bytes and shape h, for the kind with place q.
pub fn make_old(
    d: &[u8],
    ds: usize,
    t: &[u32],
    n: usize,
    map: &[u8],
    u: &[u8],
    us: usize,
    p: usize,
    len: usize,
    h: Shape,
    key: u64,
    q: u64,
    work: &mut [u8],
    out: &mut [u8],
    to: usize,
    lim: Limits,
) -> Step
    requires { Whole d.now ds t.now n map.now u.now us work.old × Old d.now ds p len h key × (to ≤ 4611686018427387904) × Indices d.now ds u.now us lim out.old }
    ensures { Stepped d.now ds u.now us (flag_area work.old) lim.sure (kept_of chart q (records_from u.now us).items (rec_in (fields_at (between d.now p (p + len)) h 24))) to out.old out.new result
        × FlagsKept work.old work.new }
{
    if key / 4294967296 != q {
        return Step::Nothing;
    }
    if !flagged(work, key) {
        return untouched(d, ds, u, us, p, len, h, work, out, to, lim);
    }
    if deleted(u, us, out, lim, us, key) {
        return Step::Nothing;
    }
    played(d, ds, t, n, map, u, us, p, key, work, out, to, lim)
}
