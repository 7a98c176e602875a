// The records of an update: numbers 1 to 6 record by record, and 7 within an inserted one.
ghost use Rattle.std.specs.Prelude.{◌≡◌, ◌≤◌, ◌<◌, length};
ghost use Rattle.rules.specs.File.{read_update};
ghost use Rattle.incoming.specs.Came.{third_on, Checked, came_by, behind_two};

use crate::record::check_record;
use base::{Fault, Refusal};
use opening::carried::first_two;
use rules::Mode;
use skeleton::file::record_at;

// The record at p, behind the second: the place behind it.
fn check_at(u: &[u8], p: usize) -> Result<usize, Fault>
    requires { (length u.now ≤ 16777216) × (p < length u.now) }
    ensures { Checked u.now p result }
{
    let head = record_at(u, p)?;
    let e = p + head.len;
    check_record(&u[p..e], head.shape)?;
    Ok(e)
}

// The records behind the second, which begin at start: start, or the first refusal.
fn later_records(u: &[u8], start: usize) -> Result<usize, Refusal>
    requires { (length u.now ≤ 16777216) × (start ≤ length u.now) }
    ensures { result ≡ came_by start (third_on u.now 3 start) }
{
    let mut p = start;
    let mut n = 3;
    while p < u.len() {
        match check_at(u, p) {
            Ok(e) => {
                p = e;
                n += 1;
            }
            Err(fault) => {
                return Err(Refusal { rec: n, fault });
            }
        }
    }
    Ok(start)
}

// The first pass over an update: where the records after the second begin, or the first refusal.
pub fn check_update(u: &[u8]) -> Result<usize, Refusal>
    requires { length u.now ≤ 16777216 }
    ensures { result ≡ came_by (behind_two u.now) (read_update u.now) }
{
    let start = first_two(u, Mode::InUpdate)?;
    later_records(u, start)
}
