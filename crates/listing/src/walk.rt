// The listing of an input.
ghost use Rattle.std.specs.Prelude.{◌≡◌, ◌+◌, ◌≤◌, ◌<◌, length};
ghost use Rattle.base.specs.Walk.{Got};
ghost use Rattle.memory.specs.Wrote.{Wrote};
ghost use Rattle.skeleton.specs.File.{records_from};
ghost use Rattle.skeleton.specs.Place.{fields_at};
ghost use Rattle.skeleton.specs.Shape.{Bounded};
ghost use Rattle.rules.specs.Answers.{read as the_answer};
ghost use Rattle.rules.specs.File.{read_dataset};
ghost use Rattle.rules.specs.Listing.{record_line, printed, listing};
ghost use Rattle.listing.specs.Said.{Passed, PassedFrom, record_in};
ghost use Rattle.listing.specs.Lines.{lines_from};
ghost use Rattle.listing.specs.Listed.{longest};
ghost use Rattle.listing.specs.Lists.{Lists};

use crate::counts::{entries, tuples};
use crate::lines::{put_line, put_refusal, put_total};
use crate::text::put_text;
use contents::identifier::{rcid, rver};
use memory::clearing::{zero, zero_from};
use opening::carried::first_three;
use reader::read;
use records::grammar::kind_of;
use skeleton::directory::Shape;
use skeleton::file::stated_at;
use skeleton::place::place_at;

// The line of record n, whose bytes are r.
fn put_record(r: &[u8], h: Shape, n: usize, out: &mut [u8], at: usize) -> usize
    requires { Bounded h × (length r.now ≤ 65536) × Passed (fields_at r.now h 24) × (at ≤ 400000) }
    ensures { Wrote at (record_line n (record_in (fields_at r.now h 24))) out.old result out.new × (result ≤ at + 110) }
{
    let Some(field) = place_at(r, h, 24) else {
        return at;
    };
    let Some(k) = kind_of(field.tag) else {
        return at;
    };
    let id = rcid(r, field.start, field.end, k) as usize;
    let version = rver(r, field.start, field.end, k) as usize;
    put_line(out, at, n, k, id, version, entries(r, h), tuples(r, h))
}

// The lines of the records from start on, the first of which is the fourth of the file.
fn put_records(f: &[u8], start: usize, out: &mut [u8], at: usize) -> usize
    requires { (length f.now ≤ 65536) × (start ≤ length f.now) × ((records_from f.now start).ending ≡ 0) × PassedFrom f.now start × (at ≤ 29) }
    ensures { Wrote at (lines_from f.now start 4) out.old result out.new × (result ≤ 327709) }
{
    let mut p = start;
    let mut n = 4;
    let mut q = at;
    while let Ok(head) = stated_at(f, p) {
        let e = p + head.len;
        q = put_record(&f[p..e], head.shape, n, out, q);
        p = e;
        n += 1;
    }
    q
}

// The listing of a dataset that the reader has read, with its count of records.
fn put_table(f: &[u8], count: usize, out: &mut [u8]) -> usize
    requires { (length f.now ≤ 65536) × (count ≡ (the_answer f.now).count) × (0 < count) }
    ensures { Wrote 0 (printed (read_dataset f.now)) out.old result out.new × (result ≤ longest) }
{
    let Ok(start) = first_three(f) else {
        return 0;
    };
    let p1 = put_text(out, 0, b"rec tag rcid rver attr coord\n");
    let p2 = put_records(f, start, out, p1);
    put_total(out, p2, count - 3)
}

// The listing of an input that is not too long.
fn put_short(f: &[u8], out: &mut [u8]) -> usize
    requires { length f.now ≤ 65536 }
    ensures { Wrote 0 (printed (read_dataset f.now)) out.old result out.new × (result ≤ longest) }
{
    let a = read(f);
    if a.count == 0 {
        return put_refusal(out, 0, a.number as usize, a.file as usize, a.rec);
    }
    put_table(f, a.count, out)
}

// The listing of an input.
fn put_listing(f: &[u8], out: &mut [u8]) -> usize
    ensures { Wrote 0 (listing f.now) out.old result out.new × (result ≤ longest) }
{
    if 65536 < f.len() {
        return put_text(out, 0, b"too long\n");
    }
    put_short(f, out)
}

// Lists a dataset: `out` holds the listing of the input and is zero behind it, and the result is its length; where it has no room, `out` is
// wholly zero, and the result is 0. A slice of 327,736 bytes always has room.
pub fn list(input: &[u8], out: &mut [u8]) -> usize
    ensures { Lists input.now (length out.old) result out.new }
{
    let n = put_listing(input, out);
    if out.len() < n {
        zero(out);
        return 0;
    }
    zero_from(out, n);
    n
}
