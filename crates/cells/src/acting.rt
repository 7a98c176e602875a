// A body joins those of a record, or leaves them.
ghost use Rattle.std.specs.Prelude.{false, ◌+◌, ◌-◌, ◌*◌, ◌≤◌, ◌<◌, length};
ghost use Rattle.base.specs.Keys.{join, leave};
ghost use Rattle.base.specs.Lists.{Each};
ghost use Rattle.skeleton.specs.Place.{between};
ghost use Rattle.cells.specs.Cells.{bodies_of};
ghost use Rattle.cells.specs.Keys.{key_in, key_size, Long};
ghost use Rattle.cells.specs.Acts.{Acts};

use crate::cell::add;
use crate::search::find;
use base::Fault;
use memory::close_gap;

// The body from at to end of u, an INAS or one tuple of a SPAS, joins the n of c, else 7 at tuple j; how many cells there are then.
pub fn join_cells(
    d: &[u8],
    u: &[u8],
    at: usize,
    end: usize,
    j: usize,
    c: &mut [u8],
    n: usize,
    inas: bool,
) -> Result<usize, Fault>
    requires { (at + key_size inas ≤ end) × (end ≤ length u.now) × (end ≤ 16777216) × (end - at < 16777216) × (7 * n + 7 ≤ length c.old)
        × Each (Long (key_size inas)) (bodies_of d.now u.now c.old n) }
    ensures { Acts (join (key_in inas) j (between u.now at end) (bodies_of d.now u.now c.old n))
        d.now u.now c.new (n + 1) result }
{
    if find(d, u, c, n, at, inas).is_some() {
        return Err(Fault {
            number: 7,
            field: 0,
            tuple: j,
        });
    }
    Ok(add(at, end, 1, c, n))
}

// The tuple of c with the key of the one from at to end of u leaves, else 9 at tuple j; how many cells there are then.
pub fn leave_cells(
    d: &[u8],
    u: &[u8],
    at: usize,
    end: usize,
    j: usize,
    c: &mut [u8],
    n: usize,
) -> Result<usize, Fault>
    requires { (at + key_size false ≤ end) × (end ≤ length u.now) × (7 * n ≤ length c.old) × Each (Long (key_size false)) (bodies_of d.now u.now c.old n) }
    ensures { Acts (leave (key_in false) j (key_in false (between u.now at end)) (bodies_of d.now u.now c.old n))
        d.now u.now c.new n result }
{
    let Some(i) = find(d, u, c, n, at, false) else {
        return Err(Fault {
            number: 9,
            field: 0,
            tuple: j,
        });
    };
    close_gap(c, 7 * n, 7 * i, 7);
    Ok(n - 1)
}
