// A record in the workspace as one of the result.
ghost use Rattle.std.specs.Prelude.{◌*◌, ◌≤◌, length};
ghost use Rattle.composing.specs.Settled.{Asks};
ghost use Rattle.composing.specs.Kept.{Kept, Lasts, EmitsHeld, MadeHeld};

use composing::held::version_passes;
use emission::measuring::version_length;
use emission::writer::write_version;
use sorting::limits::Limits;
use version::Version;

// How long it is when it is written.
fn held_length(d: &[u8], u: &[u8], work: &[u8], v: Version) -> usize
    requires { (length d.now ≤ 16777216) × (length u.now ≤ 16777216) × (400000 ≤ length work.now) × Kept d.now u.now work.now v }
    ensures { Lasts d.now u.now work.now v result }
{
    version_length(d, u, work, v)
}

// It is written from `to` on where there is room; says where the next one begins in any case.
fn emit_version(d: &[u8], u: &[u8], work: &[u8], v: Version, out: &mut [u8], to: usize) -> usize
    requires { (length d.now ≤ 16777216) × (length u.now ≤ 16777216) × (400000 ≤ length work.now) × (to ≤ 4611686018427387904) × Kept d.now u.now work.now v }
    ensures { EmitsHeld d.now u.now work.now v to out.old result out.new }
{
    let n = to + held_length(d, u, work, v);
    if out.len() < n {
        return n;
    }
    write_version(d, u, work, v, out, to)
}

// The same, with what it names; none where it names a record that does not stand (11).
pub fn make_held(
    d: &[u8],
    ds: usize,
    t: &[u32],
    n: usize,
    map: &[u8],
    u: &[u8],
    us: usize,
    flags: &[u8],
    work: &[u8],
    v: Version,
    out: &mut [u8],
    to: usize,
    lim: Limits,
) -> Option<usize>
    requires asks { Asks d.now ds t.now n map.now u.now us flags.now lim out.old × (400000 ≤ length work.now) × (7 * v.inas ≤ 92000) × (7 * v.spas ≤ 94000) }
    requires kept { (length d.now ≤ 16777216) × (length u.now ≤ 16777216) × (to ≤ 4611686018427387904) × Kept d.now u.now work.now v }
    ensures { MadeHeld d.now ds u.now us flags.now lim.sure work.now v to out.old out.new result }
{
    if !version_passes(d, ds, t, n, map, u, us, flags, out, lim, work, v) {
        return None;
    }
    Some(emit_version(d, u, work, v, out, to))
}
