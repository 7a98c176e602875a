// Whether all keys of a record's associations stand once, where many of them do not rise: the codes of some two thousand at a time are put in order in a
// book, and all before them and they themselves are held against it. That the book is in order is not proved: without that, the answer is no.
ghost use Rattle.std.specs.Prelude.{◌≡◌, true, false, ◌+◌, ◌≤◌, ◌<◌, length};
ghost use Rattle.skeleton.specs.Place.{fields_at};
ghost use Rattle.skeleton.specs.RightFrom.{RightFrom};
ghost use Rattle.skeleton.specs.Shape.{Bounded};
ghost use Rattle.contents.specs.Fit.{all_fit};
ghost use Rattle.contents.specs.Keys.{once_from};
ghost use Rattle.contents.specs.Codes.{codes_in, Apart, Walks, Gathers, Joins};

use crate::codes::{Walk, advance, begin};
use crate::strays::count_strays;
use book::book::page;
use book::order::sort;
use keys::bits::{flag, raise};
use memory::clearing::zero;
use skeleton::directory::Shape;

// How many codes a book took, and the walk behind them.
#[derive(Clone, Copy)]
pub struct Gathered {
    pub count: usize,
    pub on: Walk,
}

// The codes from a walk on into the book, as many as it takes.
fn gather(r: &[u8], h: Shape, w: Walk, b: &mut [u64]) -> Gathered
    requires { Bounded h × Walks r.now h w × (0 < length b.old) }
    ensures { Gathers r.now h w (length b.old) result }
{
    let mut v = w;
    for k in 0..b.len() {
        let Some((code, on)) = advance(r, h, v) else {
            return Gathered { count: k, on: v };
        };
        b[k] = code;
        v = on;
    }
    Gathered {
        count: b.len(),
        on: v,
    }
}

// A code joins the flags of the book b; no where it cannot be told that it is new, and that is asked for, or where it is not.
fn join(b: &[u64], t: &mut [u8], code: u64, new: bool) -> bool
    requires { 0 < length b.now }
    ensures { result ≡ true → Joins b.now t.old t.new code new }
{
    let j = page(b, code);
    if b[j] != code {
        return !new;
    }
    if t.len() <= j / 8 {
        return false;
    }
    if flag(t, j) {
        return false;
    }
    raise(t, j);
    true
}

// Whether each code from number x up to e, behind others that are apart, is none of the earlier ones.
fn all_new(r: &[u8], h: Shape, p: usize, x: usize, e: usize, b: &[u64], t: &mut [u8]) -> bool
    requires { Bounded h × (all_fit false (fields_at r.now h p) ≡ true) × (0 < length b.now) × Apart (codes_in (fields_at r.now h p)) x }
    ensures { result ≡ true → Apart (codes_in (fields_at r.now h p)) e }
{
    zero(t);
    let mut w = begin(p);
    for y in 0..e {
        let Some((code, on)) = advance(r, h, w) else {
            return false;
        };
        if !join(b, t, code, x <= y) {
            return false;
        }
        w = on;
    }
    true
}

// The same, for a book that is not yet in order.
fn chapter_new(
    r: &[u8],
    h: Shape,
    p: usize,
    x: usize,
    e: usize,
    b: &mut [u64],
    t: &mut [u8],
) -> bool
    requires { Bounded h × (all_fit false (fields_at r.now h p) ≡ true) × (0 < length b.old) × Apart (codes_in (fields_at r.now h p)) x }
    ensures { result ≡ true → Apart (codes_in (fields_at r.now h p)) e }
{
    sort(b);
    all_new(r, h, p, x, e, b, t)
}

// Whether each key of the fields from the entry at p on stands once, by a book b with the flags t. A record has less than 65,536 keys.
fn once_by(r: &[u8], h: Shape, p: usize, b: &mut [u64], t: &mut [u8]) -> bool
    requires { Bounded h × (all_fit false (fields_at r.now h p) ≡ true) × (0 < length b.old) × (length b.old ≤ 2048) }
    ensures { result ≡ true → once_from r.now h p 0 ≡ Ok tt }
{
    let mut w = begin(p);
    let mut x = 0;
    while x < 65536 {
        let g = gather(r, h, w, b);
        let k = g.count;
        if k == 0 {
            return true;
        }
        if !chapter_new(r, h, p, x, x + k, &mut b[..k], t) {
            return false;
        }
        x += k;
        w = g.on;
    }
    false
}

// Whether each key of the fields from the entry at p on, the second of the record, stands once: yes is certain.
fn all_once(r: &[u8], h: Shape, p: usize) -> bool
    requires { Bounded h × (all_fit false (fields_at r.now h p) ≡ true) }
    ensures { result ≡ true → once_from r.now h p 0 ≡ Ok tt }
{
    let mut b = [0u64; 2048];
    let mut t = [0u8; 256];
    once_by(r, h, p, &mut b, &mut t)
}

// The same, asked for where that may spare time, in a long record: where each key is above all earlier ones, that is enough, and where many are not,
// the book tells.
pub fn surely_once(r: &[u8], h: Shape, p: usize) -> bool
    requires { Bounded h × (2 ≤ p) × (all_fit false (fields_at r.now h p) ≡ true) × RightFrom r.now h p }
    ensures { result ≡ true → once_from r.now h p 0 ≡ Ok tt }
{
    if r.len() < 1024 {
        return false;
    }
    let strays = count_strays(r, h, p);
    if strays == 0 {
        return true;
    }
    if strays < 16 {
        return false;
    }
    all_once(r, h, p)
}
