// An update record on the way to the result: the record that it inserts, if none of the later ones deletes it.
ghost use Rattle.std.specs.Prelude.{◌≡◌, ◌+◌, ◌≤◌, eqb};
ghost use Rattle.base.specs.Walk.{Got};
ghost use Rattle.skeleton.specs.File.{records_from};
ghost use Rattle.skeleton.specs.Place.{between, fields_at};
ghost use Rattle.skeleton.specs.Shape.{Bounded};
ghost use Rattle.sequence.specs.Stream.{joined_of};
ghost use Rattle.updates.specs.Acts.{chart};
ghost use Rattle.version.specs.Areas.{flag_area};
ghost use Rattle.version.specs.Present.{FlagsKept};
ghost use Rattle.sorting.specs.Indices.{Indices};
ghost use Rattle.composing.specs.Acts.{ruin_with};
ghost use Rattle.lasting.specs.Whole.{Whole, New};
ghost use Rattle.lasting.specs.Step.{Stepped};
ghost use Rattle.lasting.specs.Stays.{NewStep, Lasting};

use crate::Step;
use crate::named::{deleted, play_named};
use crate::stepping::last_step;
use composing::acts::ruin;
use skeleton::directory::Shape;
use sorting::limits::Limits;

// Whether the update record r, which names the key, inserts.
fn inserts(r: &[u8], h: Shape, key: u64) -> bool
    requires { Bounded h }
    ensures { result ≡ eqb (ruin_with key (fields_at r.now h 24)) 1 }
{
    ruin(r, h, key) == 1
}

// The record that the update record at p inserts, after the later ones that name it.
fn joined(
    d: &[u8],
    ds: usize,
    t: &[u32],
    n: usize,
    map: &[u8],
    u: &[u8],
    us: usize,
    p: usize,
    key: u64,
    work: &mut [u8],
    out: &mut [u8],
    to: usize,
    lim: Limits,
) -> Step
    requires { Whole d.now ds t.now n map.now u.now us work.old × Lasting u.now us p key × (to ≤ 4611686018427387904) × Indices d.now ds u.now us lim out.old }
    ensures { NewStep d.now ds u.now us work.old lim.sure to out.old out.new p key work.new result }
{
    let last = play_named(d, u, us, out, lim, p, key, None, work);
    last_step(d, ds, t, n, map, u, us, work, last, out, to, lim)
}

// The update record at p, of len bytes and shape h, for the kind with place q.
pub fn make_new(
    d: &[u8],
    ds: usize,
    t: &[u32],
    n: usize,
    map: &[u8],
    u: &[u8],
    us: usize,
    p: usize,
    len: usize,
    h: Shape,
    key: u64,
    q: u64,
    work: &mut [u8],
    out: &mut [u8],
    to: usize,
    lim: Limits,
) -> Step
    requires { Whole d.now ds t.now n map.now u.now us work.old × New u.now us p len h key × (to ≤ 4611686018427387904) × Indices d.now ds u.now us lim out.old }
    ensures { Stepped d.now ds u.now us (flag_area work.old) lim.sure (joined_of chart q (fields_at (between u.now p (p + len)) h 24) (records_from u.now (p + len)).items) to out.old out.new result
        × FlagsKept work.old work.new }
{
    if key / 4294967296 != q {
        return Step::Nothing;
    }
    if !inserts(&u[p..p + len], h, key) {
        return Step::Nothing;
    }
    if deleted(u, us, out, lim, p + len, key) {
        return Step::Nothing;
    }
    joined(d, ds, t, n, map, u, us, p, key, work, out, to, lim)
}
