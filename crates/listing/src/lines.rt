// The lines of the listing.
ghost use Rattle.std.specs.Prelude.{◌+◌, ◌≤◌};
ghost use Rattle.memory.specs.Wrote.{Wrote};
ghost use Rattle.listing.specs.Lines.{spaced_tag, line_of, refusal_line, total_line};

use crate::text::{put_number, put_spaced, put_text};
use rules::Kind;

// A blank, and the tag of a kind behind it.
fn put_tag(out: &mut [u8], at: usize, k: Kind) -> usize
    requires { at ≤ 1000000 }
    ensures { Wrote at (spaced_tag k) out.old result out.new × (result ≤ at + 5) }
{
    match k {
        Kind::Info => put_text(out, at, b" IRID"),
        Kind::Point => put_text(out, at, b" PRID"),
        Kind::Multi => put_text(out, at, b" MRID"),
        Kind::Feature => put_text(out, at, b" FRID"),
    }
}

// The line of record n.
pub fn put_line(
    out: &mut [u8],
    at: usize,
    n: usize,
    k: Kind,
    rcid: usize,
    rver: usize,
    entries: usize,
    tuples: usize,
) -> usize
    requires { at ≤ 400000 }
    ensures { Wrote at (line_of n k rcid rver entries tuples) out.old result out.new × (result ≤ at + 110) }
{
    let p1 = put_number(out, at, n);
    let p2 = put_tag(out, p1, k);
    let p3 = put_spaced(out, p2, rcid);
    let p4 = put_spaced(out, p3, rver);
    let p5 = put_spaced(out, p4, entries);
    let p6 = put_spaced(out, p5, tuples);
    put_text(out, p6, b"\n")
}

// The line of a refusal.
pub fn put_refusal(out: &mut [u8], at: usize, number: usize, file: usize, n: usize) -> usize
    requires { at ≤ 400000 }
    ensures { Wrote at (refusal_line number file n) out.old result out.new × (result ≤ at + 71) }
{
    let p1 = put_text(out, at, b"refused");
    let p2 = put_spaced(out, p1, number);
    let p3 = put_spaced(out, p2, file);
    let p4 = put_spaced(out, p3, n);
    put_text(out, p4, b"\n")
}

// The last line.
pub fn put_total(out: &mut [u8], at: usize, n: usize) -> usize
    requires { at ≤ 400000 }
    ensures { Wrote at (total_line n) out.old result out.new × (result ≤ at + 27) }
{
    let p1 = put_text(out, at, b"total");
    let p2 = put_spaced(out, p1, n);
    put_text(out, p2, b"\n")
}
