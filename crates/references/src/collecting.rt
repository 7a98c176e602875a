// The RCIDs that records name from a place on, as many as a book holds: those of keys that have no place in the map. Nothing is promised of what stands in the
// book and in its sieve, but no other flag is raised.
ghost use Rattle.std.specs.Prelude.{◌≤◌, length};
ghost use Rattle.skeleton.specs.Shape.{Bounded};
ghost use Rattle.book.specs.Rcids.{Unmet};

use book::rcids::{rcid_of, sift};
use keys::look::key_at;
use keys::slots::slot;
use memory::clearing::zero;
use rules::tags;
use skeleton::directory::Shape;
use skeleton::file::record_at;
use skeleton::place::place_at;

// The RCID of one key more behind n entries, if it has no place in the map and the book has room; how many there are then.
fn add(t: &mut [u32], k: &mut [u8], n: usize, key: u64) -> usize
    requires { Unmet k.old }
    ensures { (result ≤ length t.new) × Unmet k.new }
{
    if t.len() <= n {
        return t.len();
    }
    if slot(key).is_some() {
        return n;
    }
    let rcid = rcid_of(key);
    t[n] = rcid;
    sift(k, rcid);
    n + 1
}

// Those of the tuples of a SPAS from `from` on.
fn add_tuples(t: &mut [u32], k: &mut [u8], n: usize, b: &[u8], from: usize) -> usize
    requires { (n ≤ length t.old) × Unmet k.old }
    ensures { (result ≤ length t.new) × Unmet k.new }
{
    let mut at = from;
    let mut m = n;
    // A `while`: a tuple of 15 bytes is read where it stands.
    while at < b.len() {
        if 16777216 < at {
            return m;
        }
        m = add(t, k, m, key_at(b, at));
        at += 15;
    }
    m
}

// Those of a field, of a SPAS from `from` on.
fn add_field(t: &mut [u32], k: &mut [u8], n: usize, tag: u32, b: &[u8], from: usize) -> usize
    requires { (n ≤ length t.old) × Unmet k.old }
    ensures { (result ≤ length t.new) × Unmet k.new }
{
    if tag == tags::INAS {
        return add(t, k, n, key_at(b, 0));
    }
    if tag == tags::SPAS {
        return add_tuples(t, k, n, b, from);
    }
    n
}

// Those of the record r from the field on whose entry stands at q.
fn add_record(
    t: &mut [u32],
    k: &mut [u8],
    n: usize,
    r: &[u8],
    h: Shape,
    q: usize,
    from: usize,
) -> usize
    requires { Bounded h × (n ≤ length t.old) × Unmet k.old }
    ensures { (result ≤ length t.new) × Unmet k.new }
{
    let mut e = q;
    let mut at = from;
    let mut m = n;
    while let Some(field) = place_at(r, h, e) {
        m = add_field(t, k, m, field.tag, &r[field.start..field.end], at);
        e = field.next;
        at = 0;
    }
    m
}

// Those of the records from p on, of the first from the field on whose entry stands at q.
pub fn collect(f: &[u8], p: usize, q: usize, from: usize, t: &mut [u32], k: &mut [u8])
    ensures { Unmet k.new }
{
    t.fill(u32::MAX);
    zero(k);
    if f.len() < p {
        return;
    }
    let mut r = p;
    let mut e = q;
    let mut at = from;
    let mut n = 0;
    while n < t.len() {
        let Ok(head) = record_at(f, r) else {
            return;
        };
        let to = r + head.len;
        n = add_record(t, k, n, &f[r..to], head.shape, e, at);
        r = to;
        e = 24;
        at = 0;
    }
}
