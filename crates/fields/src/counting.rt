// The tuples of a field counted.
ghost use Rattle.std.specs.Prelude.{true, ◌≡◌, ◌≤◌, length};
ghost use Rattle.std.proofs.Math.Seq.{slice};
ghost use Rattle.fields.specs.Table.{head_of, tuple_of};
ghost use Rattle.fields.specs.Content.{tally_field};
ghost use Rattle.fields.specs.Places.{is_raw, all_raw, tally_at};
ghost use Rattle.fields.specs.Rows.{table, rows};

use crate::row::{Shape, row, rows_end, rows_of};
use crate::{Format, Sub};

// Any bytes will do.
fn is_raw(d: Sub) -> bool
    ensures { result ≡ is_raw d }
{
    matches!(d, Sub::Raw(_))
}

// Each of the rows from..to takes any bytes.
fn all_raw(from: usize, to: usize) -> bool
    requires { (from ≤ to) × (to ≤ rows) }
    ensures { result ≡ all_raw (slice from to table) }
{
    for j in from..to {
        if !is_raw(row(j)) {
            return false;
        }
    }
    true
}

// How many tuples of the rows from..to fill the bytes from `at` on, or the number of the first that does not stand.
fn tally_each(from: usize, to: usize, b: &[u8], at: usize) -> Result<usize, usize>
    requires { (from ≤ to) × (to ≤ rows) × (at ≤ length b.now) }
    ensures { result ≡ tally_at (slice from to table) b.now at 0 }
{
    let mut p = at;
    let mut k: usize = 0;
    while p < b.len() {
        let Some(n) = rows_end(from, to, b, p) else {
            return Err(k + 1);
        };
        if n <= p {
            return Err(k + 1);
        }
        p = n;
        k += 1;
    }
    Ok(k)
}

// The same where any bytes will do: the first tuple's length tells how many there are.
fn tally_raw(from: usize, to: usize, b: &[u8], at: usize) -> Result<usize, usize>
    requires { (from ≤ to) × (to ≤ rows) × (at ≤ length b.now) × (all_raw (slice from to table) ≡ true) }
    ensures { result ≡ tally_at (slice from to table) b.now at 0 }
{
    if b.len() <= at {
        return Ok(0);
    }
    let Some(n) = rows_end(from, to, b, at) else {
        return Err(1);
    };
    if n <= at {
        return Err(1);
    }
    let left = b.len() - at;
    let width = n - at;
    if left % width == 0 {
        return Ok(left / width);
    }
    Err(left / width + 1)
}

// How many tuples fill a field of this format, or the number of the first that does not stand, 0 for the head (5). A list of coordinates is counted by
// its length alone.
pub fn tally_of(k: Format, b: &[u8]) -> Result<usize, usize>
    ensures { result ≡ tally_field (head_of k) (tuple_of k) b.now }
{
    let Shape(head, tuple, end) = rows_of(k);
    let Some(n) = rows_end(head, tuple, b, 0) else {
        return Err(0);
    };
    if all_raw(tuple, end) {
        return tally_raw(tuple, end, b, n);
    }
    tally_each(tuple, end, b, n)
}
