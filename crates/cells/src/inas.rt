// The INAS fields of a record.
ghost use Rattle.std.specs.Prelude.{◌≡◌, true, false, List, [], ◌∷◌, ◌++◌, ℕ, ◌+◌, ◌-◌, ◌*◌, ◌≤◌, ◌<◌, length};
ghost use Rattle.base.specs.Lists.{Each};
ghost use Rattle.skeleton.specs.Place.{between};
ghost use Rattle.fields.specs.Table.{head_of, tuple_of};
ghost use Rattle.fields.specs.Content.{fill};
ghost use Rattle.rules.specs.Content.{inas_format};
ghost use Rattle.items.specs.Items.{source};
ghost use Rattle.base.specs.Keys.{join, leave};
ghost use Rattle.cells.specs.Cells.{bodies_of, fields_size};
ghost use Rattle.cells.specs.Keys.{key_in, Long, InasBody};
ghost use Rattle.cells.specs.Acts.{Acts, InasActs, counts, Totals};

use crate::acting::join_cells;
use crate::cell::add;
use crate::length::body_length;
use crate::search::find;
use base::Fault;
use memory::close_gap;

// A stored INAS, from at to end in the slice that x names, is added behind the first n; how many there are then.
pub fn load_inas(at: usize, end: usize, x: u8, c: &mut [u8], n: usize) -> usize
    requires { (at ≤ end) × (end ≤ 16777216) × (end - at < 16777216) × (7 * n + 7 ≤ length c.old) }
    ensures { (result ≡ n + 1) × ((d u : List ℕ) → bodies_of d u c.new (n + 1) ≡ bodies_of d u c.old n ++ (between (source x d u) at end ∷ [])) }
{
    add(at, end, x, c, n)
}

// The INAS from at to end of u joins the n of c, which are t bytes as fields, else 7; how many cells there are then, and their bytes as fields.
fn join_inas(
    d: &[u8],
    u: &[u8],
    at: usize,
    end: usize,
    c: &mut [u8],
    n: usize,
    t: usize,
) -> Result<(usize, usize), Fault>
    requires { (at + 9 ≤ end) × (end ≤ length u.now) × (end ≤ 16777216) × (end - at < 16777216) × (7 * n + 7 ≤ length c.old)
        × Each (Long 9) (bodies_of d.now u.now c.old n) × (t ≡ fields_size (bodies_of d.now u.now c.old n)) × (t ≤ 1000000000000) }
    ensures { Acts (join (key_in true) 0 (between u.now at end) (bodies_of d.now u.now c.old n))
        d.now u.now c.new (n + 1) (counts result) × Totals d.now u.now c.new (t + (end - at) + 1) result }
{
    let m = join_cells(d, u, at, end, 0, c, n, true)?;
    Ok((m, t + (end - at) + 1))
}

// The INAS of c with the key of the one from at to end of u leaves, else 9; how many cells there are then, and their bytes as fields.
fn leave_inas(
    d: &[u8],
    u: &[u8],
    at: usize,
    end: usize,
    c: &mut [u8],
    n: usize,
    t: usize,
) -> Result<(usize, usize), Fault>
    requires { (at + 9 ≤ end) × (end ≤ length u.now) × (7 * n ≤ length c.old)
        × Each (Long 9) (bodies_of d.now u.now c.old n) × (t ≡ fields_size (bodies_of d.now u.now c.old n)) }
    ensures { Acts (leave (key_in true) 0 (key_in true (between u.now at end)) (bodies_of d.now u.now c.old n))
        d.now u.now c.new n (counts result) × Totals d.now u.now c.new (t + (end - at) + 1) result }
{
    let Some(i) = find(d, u, c, n, at, true) else {
        return Err(Fault {
            number: 9,
            field: 0,
            tuple: 0,
        });
    };
    let left = body_length(d, u, c, i) + 1;
    close_gap(c, 7 * n, 7 * i, 7);
    Ok((n - 1, t - left))
}

// An INAS of a modify, from at to end of u, acts on the n of c, which are t bytes as fields: insert appends, delete removes by key; how
// many cells there are then, and their bytes as fields. IUIN is its tenth byte.
pub fn act_inas(
    d: &[u8],
    u: &[u8],
    at: usize,
    end: usize,
    c: &mut [u8],
    n: usize,
    t: usize,
) -> Result<(usize, usize), Fault>
    requires { (at ≤ end) × (end ≤ length u.now) × (end ≤ 16777216) × (end - at < 16777216) × (7 * n + 7 ≤ length c.old)
        × (fill (head_of (inas_format false (between u.now at end))) (tuple_of (inas_format false (between u.now at end))) (between u.now at end) ≡ true)
        × Each InasBody (bodies_of d.now u.now c.old n) × (t ≡ fields_size (bodies_of d.now u.now c.old n)) × (t ≤ 1000000000000) }
    ensures { InasActs (between u.now at end) (bodies_of d.now u.now c.old n)
        d.now u.now c.new n (counts result) × Totals d.now u.now c.new (t + (end - at) + 1) result }
{
    if u[at + 9] == 1 {
        return join_inas(d, u, at, end, c, n, t);
    }
    leave_inas(d, u, at, end, c, n, t)
}
