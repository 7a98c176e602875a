// One subfield of any format: a function for each way in which one is written, and the choice among them.
// A further way is a variant of `Sub`, a function here and an arm of `subfield_end`.
ghost use Rattle.std.specs.Prelude.{◌≡◌, ◌≤◌, length};
ghost use Rattle.fields.specs.Places.{within, one_of, subfield_end};

use crate::Sub;
use crate::number::{le8, le16, le32};
use crate::text::text_end;

// The place `next`, if the value is from lo to hi.
fn in_range(v: u32, lo: u32, hi: u32, next: usize) -> Option<usize>
    ensures { result ≡ within lo hi v next }
{
    (lo <= v && v <= hi).then_some(next)
}

// The place `next`, if the value is one of four.
fn in_set(v: u32, p: u32, q: u32, s: u32, t: u32, next: usize) -> Option<usize>
    ensures { result ≡ one_of p q s t v next }
{
    (v == p || v == q || v == s || v == t).then_some(next)
}

// A number of 1 byte from lo to hi.
pub fn ranged8(lo: u32, hi: u32, b: &[u8], at: usize) -> Option<usize>
    requires { at ≤ length b.now }
    ensures { result ≡ subfield_end (Sub.B11 lo hi) b.now at }
{
    if b.len() - at < 1 {
        return None;
    }
    in_range(le8(b, at) as u32, lo, hi, at + 1)
}

// A number of 2 bytes from lo to hi.
pub fn ranged16(lo: u32, hi: u32, b: &[u8], at: usize) -> Option<usize>
    requires { at ≤ length b.now }
    ensures { result ≡ subfield_end (Sub.B12 lo hi) b.now at }
{
    if b.len() - at < 2 {
        return None;
    }
    in_range(le16(b, at) as u32, lo, hi, at + 2)
}

// A number of 4 bytes from lo to hi.
pub fn ranged32(lo: u32, hi: u32, b: &[u8], at: usize) -> Option<usize>
    requires { at ≤ length b.now }
    ensures { result ≡ subfield_end (Sub.B14 lo hi) b.now at }
{
    if b.len() - at < 4 {
        return None;
    }
    in_range(le32(b, at), lo, hi, at + 4)
}

// A number of 1 byte that is one of four.
pub fn chosen8(p: u32, q: u32, s: u32, t: u32, b: &[u8], at: usize) -> Option<usize>
    requires { at ≤ length b.now }
    ensures { result ≡ subfield_end (Sub.Among p q s t) b.now at }
{
    if b.len() - at < 1 {
        return None;
    }
    in_set(le8(b, at) as u32, p, q, s, t, at + 1)
}

// Any n bytes.
pub fn any_bytes(n: usize, b: &[u8], at: usize) -> Option<usize>
    requires { at ≤ length b.now }
    ensures { result ≡ subfield_end (Sub.Raw n) b.now at }
{
    if b.len() - at < n {
        return None;
    }
    Some(at + n)
}

// A text that 1F ends.
pub fn ended_text(b: &[u8], at: usize) -> Option<usize>
    requires { at ≤ length b.now }
    ensures { result ≡ subfield_end Sub.Text b.now at }
{
    let e = text_end(b, at);
    if b.len() <= e {
        return None;
    }
    if b[e] == 31 {
        return Some(e + 1);
    }
    None
}

// A text of n bytes.
fn fixed_text(n: usize, b: &[u8], at: usize) -> Option<usize>
    requires { at ≤ length b.now }
    ensures { result ≡ subfield_end (Sub.Fixed n) b.now at }
{
    let e = text_end(b, at);
    if e - at < n {
        return None;
    }
    Some(at + n)
}

// Where the subfield at `at` ends.
pub fn subfield_end(d: Sub, b: &[u8], at: usize) -> Option<usize>
    requires { at ≤ length b.now }
    ensures { result ≡ subfield_end d b.now at }
{
    match d {
        Sub::B11(lo, hi) => ranged8(lo, hi, b, at),
        Sub::B12(lo, hi) => ranged16(lo, hi, b, at),
        Sub::B14(lo, hi) => ranged32(lo, hi, b, at),
        Sub::Among(p, q, s, t) => chosen8(p, q, s, t, b, at),
        Sub::Raw(n) => any_bytes(n, b, at),
        Sub::Text => ended_text(b, at),
        Sub::Fixed(n) => fixed_text(n, b, at),
    }
}
