// The SPAS fields of a record, tuple by tuple.
ghost use Rattle.std.specs.Prelude.{◌≡◌, true, List, ℕ, ◌+◌, ◌-◌, ◌*◌, ◌/◌, ◌%◌, ◌≤◌, length};
ghost use Rattle.base.specs.Lists.{each, Each};
ghost use Rattle.skeleton.specs.Place.{between};
ghost use Rattle.fields.specs.Table.{head_of, tuple_of};
ghost use Rattle.fields.specs.Content.{fill, many};
ghost use Rattle.fields.specs.declared.Format.TheVariants.{Spas};
ghost use Rattle.rules.specs.Modify.{act_spas};
ghost use Rattle.cells.specs.Cells.{bodies_of, spatial_in};
ghost use Rattle.cells.specs.Keys.{SpasBody};
ghost use Rattle.cells.specs.Acts.{SpasLoaded, act_tuple, SpasActs};

use crate::acting::{join_cells, leave_cells};
use crate::cell::add;
use base::Fault;

// The tuples of a stored SPAS, from at to end in the slice that x names, are added behind the first n; how many there are then.
pub fn load_spas(at: usize, end: usize, x: u8, c: &mut [u8], n: usize) -> usize
    requires { (at ≤ end) × (end ≤ 16777216) × ((end - at) % 15 ≡ 0) × (7 * (n + (end - at) / 15) ≤ length c.old) }
    ensures { (result ≡ n + (end - at) / 15) × ((d u : List ℕ) → SpasLoaded d u at end x c.old n c.new result) }
{
    let mut p = at;
    let mut m = n;
    // A `while`: it walks by tuples of 15 bytes.
    while p < end {
        m = add(p, p + 15, x, c, m);
        p += 15;
    }
    m
}

// Tuple j of a SPAS of a modify, at p of u, acts on the n of c: insert appends, delete removes by key. SAUI is its last byte.
fn act_tuple(d: &[u8], u: &[u8], p: usize, j: usize, c: &mut [u8], n: usize) -> Result<usize, Fault>
    requires { (p + 15 ≤ length u.now) × (p + 15 ≤ 16777216) × (7 * n + 7 ≤ length c.old)
        × (fill (head_of Spas) (tuple_of Spas) (between u.now p (p + 15)) ≡ true) × Each SpasBody (bodies_of d.now u.now c.old n) }
    ensures { SpasActs (act_tuple j (between u.now p (p + 15)) (each spatial_in (bodies_of d.now u.now c.old n)))
        d.now u.now c.new (n + 1) result }
{
    if u[p + 14] == 1 {
        return join_cells(d, u, p, p + 15, j, c, n, false);
    }
    leave_cells(d, u, p, p + 15, j, c, n)
}

// A SPAS of a modify, from at to end of u, acts on the n of c; how many cells there are then, or the fault at a tuple of it.
pub fn act_spas(
    d: &[u8],
    u: &[u8],
    at: usize,
    end: usize,
    c: &mut [u8],
    n: usize,
) -> Result<usize, Fault>
    requires { (at ≤ end) × (end ≤ length u.now) × (end ≤ 16777216) × (7 * (n + (end - at) / 15) ≤ length c.old)
        × (fill (head_of Spas) (tuple_of Spas) (between u.now at end) ≡ true) × Each SpasBody (bodies_of d.now u.now c.old n) }
    ensures { SpasActs (act_spas 1 (many (tuple_of Spas) (between u.now at end)) (each spatial_in (bodies_of d.now u.now c.old n)))
        d.now u.now c.new (n + (end - at) / 15) result }
{
    let mut p = at;
    let mut j = 1;
    let mut m = n;
    // A `while`: it walks by tuples of 15 bytes.
    while p < end {
        m = act_tuple(d, u, p, j, c, m)?;
        p += 15;
        j += 1;
    }
    Ok(m)
}
