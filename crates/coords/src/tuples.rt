// Tuples put into a list, and taken out of it.
ghost use Rattle.std.specs.Prelude.{◌≡◌, ◌++◌, ◌+◌, ◌-◌, ◌*◌, ◌/◌, ◌%◌, ◌≤◌, length, take, drop};
ghost use Rattle.skeleton.specs.Place.{between};
ghost use Rattle.rules.specs.Coordinates.{coords_in};
ghost use Rattle.coords.specs.Tuples.{tuples_of};

use memory::{close_gap, splice};

// The tuples from at to end of b are put before number i, from 0, of the n in l; how many there are then.
pub fn put_tuples(b: &[u8], at: usize, end: usize, l: &mut [u8], n: usize, i: usize) -> usize
    requires { (at ≤ end) × (end ≤ length b.now) × ((end - at) % 8 ≡ 0) × (8 * n + (end - at) ≤ length l.old) × (i ≤ n) }
    ensures { (8 * result ≡ 8 * n + (end - at))
        × (tuples_of l.new result ≡ take i (tuples_of l.old n) ++ (coords_in (between b.now at end) ++ drop i (tuples_of l.old n))) }
{
    let m = end - at;
    splice(l, 8 * n, 8 * i, 0, b, at, m);
    n + m / 8
}

// m tuples from number i, from 0, on of the n in l are taken out; how many are left.
pub fn cut_tuples(l: &mut [u8], n: usize, i: usize, m: usize) -> usize
    requires { (i + m ≤ n) × (8 * n ≤ length l.old) }
    ensures { (result ≡ n - m) × (tuples_of l.new result ≡ take i (tuples_of l.old n) ++ drop (i + m) (tuples_of l.old n)) }
{
    close_gap(l, 8 * n, 8 * i, 8 * m);
    n - m
}
