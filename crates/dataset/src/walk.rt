// The records of a dataset after the third: numbers 1 to 7, record by record.
ghost use Rattle.std.specs.Prelude.{◌≡◌, ◌+◌, ◌<◌, ◌≤◌, length};
ghost use Rattle.base.specs.Check.{ok};
ghost use Rattle.skeleton.specs.Place.{between, fields_at};
ghost use Rattle.skeleton.specs.Record.{record_at};
ghost use Rattle.keys.specs.Map.{kind_in};
ghost use Rattle.keys.specs.Listed.{keys_from};
ghost use Rattle.keys.specs.Once.{Once};
ghost use Rattle.keys.specs.Standing.{four_to_six, Standing};
ghost use Rattle.book.specs.First.{Ahead};
ghost use Rattle.dataset.specs.Walk.{whole_from, Went, Admitted, walked_by};

use crate::record::four_to_six;
use base::{Fault, Refusal};
use book::once::repeats;
use contents::associations::check_keys;
use keys::look::key_at;
use memory::clearing::zero;
use rules::{Kind, Mode};
use skeleton::file::record_at;
use skeleton::leader::Head;

// Number 7 of the record at p, of kind k, which has passed 4 to 6: its key, which is none of the m earlier ones, and its associations' keys.
fn seventh(
    f: &[u8],
    start: usize,
    p: usize,
    head: Head,
    m: usize,
    top: u64,
    k: Kind,
    t: &mut [u8],
    w: &mut usize,
) -> Result<u64, Fault>
    requires there { (length f.now ≤ 16777216) × (start ≤ length f.now) × (p < length f.now) × (record_at f.now p ≡ Ok head) }
    requires standing { Standing f.now start p m top (whole_from f.now start) × Once f.now start m top t.old × Ahead f.now start m w.old }
    requires passed { four_to_six (kind_in top) (fields_at (between f.now p (p + head.len)) head.shape 24) ≡ ok k }
    ensures { Went f.now start p head.len m top t.new w.new result }
{
    let key = key_at(f, p + head.shape.base);
    if repeats(f, start, m, top, key, t, w) {
        return Err(Fault {
            number: 7,
            field: 1,
            tuple: 0,
        });
    }
    let e = p + head.len;
    check_keys(&f[p..e], head.shape, Mode::InDataset, k)?;
    Ok(key)
}

// The record at p, after m others behind the third, the largest of whose keys is top: its length and its key.
fn admit(
    f: &[u8],
    start: usize,
    p: usize,
    m: usize,
    top: u64,
    t: &mut [u8],
    w: &mut usize,
) -> Result<(usize, u64), Fault>
    requires there { (length f.now ≤ 16777216) × (start ≤ length f.now) × (p < length f.now) }
    requires standing { Standing f.now start p m top (whole_from f.now start) × Once f.now start m top t.old × Ahead f.now start m w.old }
    ensures { Admitted f.now start p m top t.new w.new result }
{
    let head = record_at(f, p)?;
    let e = p + head.len;
    let least = (top / 4294967296) as usize;
    let k = four_to_six(&f[p..e], head.shape, Mode::InDataset, least)?;
    let key = seventh(f, start, p, head, m, top, k, t, w)?;
    Ok((head.len, key))
}

// The records from start on: how many there are, or the first refusal.
fn each_record(f: &[u8], start: usize, t: &mut [u8]) -> Result<usize, Refusal>
    requires { (length f.now ≤ 16777216) × (start ≤ length f.now) × Once f.now start 0 0 t.old }
    ensures { result ≡ walked_by (length (keys_from f.now start)) (whole_from f.now start) }
{
    let mut p = start;
    let mut m = 0;
    let mut top: u64 = 0;
    let mut w: usize = 0;
    while p < f.len() {
        match admit(f, start, p, m, top, t, &mut w) {
            Ok((len, key)) => {
                top = top.max(key);
                p += len;
                m += 1;
            }
            Err(fault) => {
                return Err(Refusal { rec: m + 4, fault });
            }
        }
    }
    Ok(m)
}

// How many records a dataset has after the third, which begin at start, or the first refusal; the map is for the keys of a kind, whatever it holds before.
pub fn later_records(f: &[u8], start: usize, map: &mut [u8]) -> Result<usize, Refusal>
    requires { (length f.now ≤ 16777216) × (start ≤ length f.now) }
    ensures { result ≡ walked_by (length (keys_from f.now start)) (whole_from f.now start) }
{
    zero(map);
    each_record(f, start, map)
}
