// The records at the front of a file.
ghost use Rattle.std.specs.Prelude.{◌≡◌, ◌≤◌, length};
ghost use Rattle.base.specs.Verdict.{verdict_of};
ghost use Rattle.skeleton.specs.Place.{fields_at};
ghost use Rattle.skeleton.specs.Shape.{Bounded};
ghost use Rattle.rules.specs.General.{general_record};
ghost use Rattle.opening.specs.Carried.{head_at, carried, unread, begins_csid, first_two, first_three, in_record, opened_by};

use crate::general::check_general;
use base::{Fault, Refusal};
use rules::{Mode, tags};
use skeleton::directory::Shape;
use skeleton::file::record_at;
use skeleton::leader::Head;
use skeleton::place::place_at;

// What the skeleton finds of record n at p, where the records before it end; number 4 where the file has ended.
fn head_at(f: &[u8], n: usize, p: usize) -> Result<Head, Fault>
    requires { p ≤ length f.now }
    ensures { result ≡ head_at f.now n p }
{
    if n > 1 && f.len() <= p {
        return Err(Fault {
            number: 4,
            field: 0,
            tuple: 0,
        });
    }
    Ok(record_at(f, p)?)
}

// What is found of record n, a fault as the refusal of that record.
fn in_record(n: usize, found: Result<usize, Fault>) -> Result<usize, Refusal>
    ensures { result ≡ in_record n found }
{
    found.map_err(|fault| Refusal { rec: n, fault })
}

// The descriptive record: nothing of it is tested but the skeleton. The place behind it.
fn descriptive(f: &[u8]) -> Result<usize, Fault>
    ensures { in_record 1 result ≡ opened_by (carried 1 1 unread f.now 0) }
{
    let head = head_at(f, 1, 0)?;
    Ok(head.len)
}

// The general record at p: the place behind it.
fn general(f: &[u8], mode: Mode, p: usize) -> Result<usize, Fault>
    requires { p ≤ length f.now }
    ensures { in_record 2 result ≡ opened_by (carried 1 2 (general_record mode) f.now p) }
{
    let head = head_at(f, 2, p)?;
    let e = p + head.len;
    check_general(&f[p..e], head.shape, mode)?;
    Ok(e)
}

// Whether a record begins with CSID.
fn begins_csid(r: &[u8], h: Shape) -> Result<(), Fault>
    requires { Bounded h }
    ensures { result ≡ verdict_of (begins_csid (fields_at r.now h 24)) }
{
    if let Some(field) = place_at(r, h, 24) {
        if field.tag == tags::CSID {
            return Ok(());
        }
    }
    Err(Fault {
        number: 4,
        field: 1,
        tuple: 0,
    })
}

// The third record of a dataset, at p: the place behind it.
fn systems(f: &[u8], p: usize) -> Result<usize, Fault>
    requires { p ≤ length f.now }
    ensures { in_record 3 result ≡ opened_by (carried 1 3 begins_csid f.now p) }
{
    let head = head_at(f, 3, p)?;
    let e = p + head.len;
    begins_csid(&f[p..e], head.shape)?;
    Ok(e)
}

// The first two records of a file: the place behind them, or the first refusal.
pub fn first_two(f: &[u8], mode: Mode) -> Result<usize, Refusal>
    ensures { result ≡ opened_by (first_two 1 mode f.now) }
{
    let p = in_record(1, descriptive(f))?;
    in_record(2, general(f, mode, p))
}

// The first three records of a dataset: the place behind them, or the first refusal.
pub fn first_three(f: &[u8]) -> Result<usize, Refusal>
    ensures { result ≡ opened_by (first_three f.now) }
{
    let p = first_two(f, Mode::InDataset)?;
    in_record(3, systems(f, p))
}
