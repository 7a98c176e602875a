// Two indices at the end of an output: one of a dataset's records, and behind it one of an update's.
ghost use Rattle.std.specs.Prelude.{◌≡◌, List, ℕ, ◌≤◌, length, drop};
ghost use Rattle.skeleton.specs.Place.{between};
ghost use Rattle.keys.specs.Look.{Sound};
ghost use Rattle.sorting.specs.Places.{Indexed};
ghost use Rattle.sorting.specs.Indices.{Indices, reach, Spared, Past};

use crate::index::lay;

// Where the dataset's index begins, and where it ends and the update's begins, which goes to the output's end. A dry pass over the result's records writes
// none of them; a sure one knows that all that they name stands.
#[derive(Clone, Copy)]
pub struct Limits {
    pub old: usize,
    pub new: usize,
    pub dry: bool,
    pub sure: bool,
}

// The dataset's index.
pub fn old_index(out: &[u8], lim: Limits) -> &[u8]
    requires { (lim.old ≤ lim.new) × (lim.new ≤ length out.now) }
    ensures { result.now ≡ between out.now lim.old lim.new }
{
    &out[lim.old..lim.new]
}

// The update's index.
pub fn new_index(out: &[u8], lim: Limits) -> &[u8]
    requires { lim.new ≤ length out.now }
    ensures { result.now ≡ drop lim.new out.now }
{
    &out[lim.new..]
}

// Makes an index in the bytes of out from `from` up to `to`; where it begins, which is `to` where there is no room for it.
fn lay_in(f: &[u8], start: usize, out: &mut [u8], from: usize, to: usize) -> usize
    requires { Sound f.now start × (from ≤ to) × (to ≤ length out.old) }
    ensures { (result ≤ to) × Indexed f.now start (between out.new result to) × (drop to out.new ≡ drop to out.old) }
{
    from + lay(f, start, &mut out[from..to])
}

// Makes both, where there is room; of a dataset whose keys ascend none is needed.
pub fn lay_both(d: &[u8], ds: usize, ascend: bool, u: &[u8], us: usize, out: &mut [u8]) -> Limits
    requires { Sound d.now ds × Sound u.now us }
    ensures { Indices d.now ds u.now us result out.new }
{
    let new = lay(u, us, out);
    let old = if ascend {
        new
    } else {
        lay_in(d, ds, out, 0, new)
    };
    Limits {
        old,
        new,
        dry: false,
        sure: false,
    }
}

// The first place from `at` on, by steps of 8, that is not before `to`.
fn past(at: usize, to: usize) -> usize
    requires { to ≤ 4611686018427387904 }
    ensures { Past at to result }
{
    if to <= at {
        return at;
    }
    at + 8 * ((to - at + 7) / 8)
}

// How far a pass that has come to `to` has written.
fn reached(lim: Limits, to: usize) -> usize
    ensures { (result ≡ reach lim to) × (result ≤ to) }
{
    if lim.dry {
        return 0;
    }
    to
}

// What of them an output of so many bytes still has when a pass has come to `to`.
pub fn spare(lim: Limits, to: usize, all: usize) -> Limits
    requires { to ≤ 4611686018427387904 }
    ensures { ((d : List ℕ) (ds : ℕ) (u : List ℕ) (us : ℕ) (out : List ℕ) → Spared d ds u us lim to out → length out ≡ all → Indices d ds u us result out) × (result.sure ≡ lim.sure) }
{
    let end = reached(lim, to);
    let old = past(lim.old, end);
    if old <= lim.new {
        return Limits { old, ..lim };
    }
    let new = past(lim.new, end);
    if new <= all {
        return Limits {
            old: new,
            new,
            ..lim
        };
    }
    Limits {
        old: all,
        new: all,
        ..lim
    }
}
