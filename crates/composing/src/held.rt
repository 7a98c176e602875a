// Whether the records that a record in the workspace names stand in the end. A body in a cell begins with RRNM and RRID.
ghost use Rattle.std.specs.Prelude.{◌+◌, ◌-◌, ◌*◌, ◌≤◌, length};
ghost use Rattle.skeleton.specs.Place.{between};
ghost use Rattle.cells.specs.Cells.{body_at, bodies_of};
ghost use Rattle.composing.specs.Settled.{Asks};
ghost use Rattle.composing.specs.Keys.{KeyOf};
ghost use Rattle.composing.specs.Made.{Surely};
ghost use Rattle.composing.specs.Told.{TellsCells, TellsHeld};

use crate::standing::stands;
use cells::cell::u24_at;
use keys::look::key_at;
use sorting::limits::Limits;
use version::Version;

// The key at the front of the body of cell i.
fn cell_key(d: &[u8], u: &[u8], c: &[u8], i: usize) -> u64
    requires { (7 * i + 7 ≤ length c.now) × (length c.now ≤ 16777216) }
    ensures { KeyOf (body_at d.now u.now c.now i) result }
{
    let at = u24_at(c, 7 * i);
    if c[7 * i + 3] == 0 {
        key_at(d, at)
    } else {
        key_at(u, at)
    }
}

// Those that the bodies of the first m cells name.
fn cells_stand(
    d: &[u8],
    ds: usize,
    t: &[u32],
    n: usize,
    map: &[u8],
    u: &[u8],
    us: usize,
    flags: &[u8],
    out: &[u8],
    lim: Limits,
    c: &[u8],
    m: usize,
) -> bool
    requires { Asks d.now ds t.now n map.now u.now us flags.now lim out.now × (7 * m ≤ length c.now) × (length c.now ≤ 16777216) }
    ensures { TellsCells d.now ds u.now us flags.now (bodies_of d.now u.now c.now m) result }
{
    for i in 0..m {
        let key = cell_key(d, u, c, i);
        if !stands(d, ds, t, n, map, u, us, flags, out, lim, key) {
            return false;
        }
    }
    true
}

// Those that the bodies of the first m cells from `from` up to `to` of the workspace name.
fn area_stands(
    d: &[u8],
    ds: usize,
    t: &[u32],
    n: usize,
    map: &[u8],
    u: &[u8],
    us: usize,
    flags: &[u8],
    out: &[u8],
    lim: Limits,
    work: &[u8],
    from: usize,
    to: usize,
    m: usize,
) -> bool
    requires { Asks d.now ds t.now n map.now u.now us flags.now lim out.now × (400000 ≤ length work.now) × (from ≤ to) × (to ≤ 386000) × (7 * m ≤ to - from) }
    ensures { TellsCells d.now ds u.now us flags.now (bodies_of d.now u.now (between work.now from to) m) result }
{
    cells_stand(d, ds, t, n, map, u, us, flags, out, lim, &work[from..to], m)
}

// Those that the record in the workspace names.
fn version_stands(
    d: &[u8],
    ds: usize,
    t: &[u32],
    n: usize,
    map: &[u8],
    u: &[u8],
    us: usize,
    flags: &[u8],
    out: &[u8],
    lim: Limits,
    work: &[u8],
    v: Version,
) -> bool
    requires { Asks d.now ds t.now n map.now u.now us flags.now lim out.now × (400000 ≤ length work.now) × (7 * v.inas ≤ 92000) × (7 * v.spas ≤ 94000) }
    ensures { TellsHeld d.now ds u.now us flags.now work.now v result }
{
    let inas = v.inas;
    let spas = v.spas;
    area_stands(
        d, ds, t, n, map, u, us, flags, out, lim, work, 200000, 292000, inas,
    ) && area_stands(
        d, ds, t, n, map, u, us, flags, out, lim, work, 292000, 386000, spas,
    )
}

// The same, where that is not known before.
pub fn version_passes(
    d: &[u8],
    ds: usize,
    t: &[u32],
    n: usize,
    map: &[u8],
    u: &[u8],
    us: usize,
    flags: &[u8],
    out: &[u8],
    lim: Limits,
    work: &[u8],
    v: Version,
) -> bool
    requires { Asks d.now ds t.now n map.now u.now us flags.now lim out.now × (400000 ≤ length work.now) × (7 * v.inas ≤ 92000) × (7 * v.spas ≤ 94000) }
    ensures { Surely lim.sure (TellsHeld d.now ds u.now us flags.now work.now v result) result }
{
    lim.sure || version_stands(d, ds, t, n, map, u, us, flags, out, lim, work, v)
}
