// The first record whose key stood earlier, where flags do not tell: the RCIDs of some thousand records at a time are put in order in a book, and all
// records before them and they themselves are held against it.
ghost use Rattle.std.specs.Prelude.{◌≡◌, ◌+◌, ◌*◌, ◌≤◌, ◌<◌, length, take};
ghost use Rattle.skeleton.specs.Place.{fields_at};
ghost use Rattle.skeleton.specs.Shape.{Bounded};
ghost use Rattle.book.specs.Rcids.{Noted, Unmet};
ghost use Rattle.book.specs.Spared.{Full, Spared};
ghost use Rattle.book.specs.First.{Going, Fresh, Firstly, Reach, Foreseen, Sees, Ahead};
ghost use Rattle.keys.specs.Listed.{key_of, keys_from, seen_from};
ghost use Rattle.keys.specs.Look.{Known};
ghost use Rattle.keys.specs.Once.{Comes};

use crate::order::sort;
use crate::rcids::{enter, rcid_of, sift, spot};
use keys::bits::flag;
use keys::look::{key_at, look_at, seen};
use memory::clearing::zero;
use skeleton::directory::Shape;
use skeleton::file::record_at;
use skeleton::place::place_at;

// The key of the record r, which stands at the front of its first field.
fn first_key(r: &[u8], h: Shape) -> u64
    requires { Bounded h }
    ensures { result ≡ key_of (fields_at r.now h 24) }
{
    match place_at(r, h, 24) {
        Some(field) => key_at(&r[field.start..field.end], 0),
        None => 0,
    }
}

// How many records from start on are right and have a key.
fn reach(f: &[u8], start: usize) -> usize
    requires { (length f.now ≤ 16777216) × (start ≤ length f.now) }
    ensures { Reach f.now start result }
{
    let mut p = start;
    let mut m = 0;
    while let Ok(head) = record_at(f, p) {
        let e = p + head.len;
        if first_key(&f[p..e], head.shape) == 0 {
            return m;
        }
        p = e;
        m += 1;
    }
    m
}

// Puts an RCID at j, if the book has so many entries.
fn put(b: &mut [u32], j: usize, rcid: u32) {
    if j < b.len() {
        b[j] = rcid;
    }
}

// The RCIDs of the records from the one at p, number x, up to number e into the book, in order, and into its sieve, where no other flag is raised then; the
// place behind them.
fn gather(
    f: &[u8],
    start: usize,
    m: usize,
    p: usize,
    x: usize,
    e: usize,
    b: &mut [u32],
    t: &mut [u8],
) -> usize
    requires { Going f.now start m p x × (x ≤ e) × (e ≤ m) }
    ensures { Going f.now start m result e × Unmet t.new }
{
    zero(t);
    let mut q = p;
    for y in x..e {
        let Some(look) = look_at(f, q) else {
            return q;
        };
        let rcid = rcid_of(look.key);
        put(b, y - x, rcid);
        sift(t, rcid);
        q += look.len;
    }
    sort(b);
    q
}

// Raises the flags of those of the keys of the first x of m records from start on that the book has.
fn mark(f: &[u8], start: usize, m: usize, x: usize, b: &[u32], t: &mut [u8])
    requires { Going f.now start m start 0 × (x ≤ m) × (0 < length b.now) × Noted b.now (take 0 (keys_from f.now start)) t.old }
    ensures { Noted b.now (take x (keys_from f.now start)) t.new }
{
    let mut p = start;
    for _ in 0..x {
        let Some(look) = look_at(f, p) else {
            return;
        };
        enter(b, t, look.key);
        p += look.len;
    }
}

// Whether a key is among those of the first x records from start on: by its flag, if the book has it.
fn met(f: &[u8], start: usize, x: usize, key: u64, b: &[u32], t: &[u8]) -> bool
    requires known { (length f.now ≤ 16777216) × (start ≤ length f.now) × Known f.now start x }
    requires noted { (0 < length b.now) × Noted b.now (take x (keys_from f.now start)) t.now }
    ensures { result ≡ seen_from f.now start x key }
{
    let j = spot(b, t, key);
    if 0 < j && j / 8 < t.len() {
        return flag(t, j);
    }
    seen(f, start, x, key)
}

// The first of the records from the one at p, number x, up to number e that has the key of an earlier one; e where none has, since the
// search goes on from there.
fn fresh_until(
    f: &[u8],
    start: usize,
    m: usize,
    p: usize,
    x: usize,
    e: usize,
    b: &[u32],
    t: &mut [u8],
) -> usize
    requires going { Going f.now start m p x × (start ≤ length f.now) × (x ≤ e) × (e ≤ m) × Fresh f.now start x }
    requires noted { (0 < length b.now) × Noted b.now (take x (keys_from f.now start)) t.old }
    ensures { Firstly f.now start e result }
{
    let mut q = p;
    for y in x..e {
        let Some(look) = look_at(f, q) else {
            return e;
        };
        if met(f, start, y, look.key, b, t) {
            return y;
        }
        enter(b, t, look.key);
        q += look.len;
    }
    e
}

// The same, where no flag is raised but those of the sieve.
fn fresh_of(
    f: &[u8],
    start: usize,
    m: usize,
    p: usize,
    x: usize,
    e: usize,
    b: &[u32],
    t: &mut [u8],
) -> usize
    requires { Going f.now start m start 0 × Going f.now start m p x × (start ≤ length f.now) × (x ≤ e) × (e ≤ m) × Fresh f.now start x × (0 < length b.now) × Unmet t.old }
    ensures { Firstly f.now start e result }
{
    mark(f, start, m, x, b, t);
    fresh_until(f, start, m, p, x, e, b, t)
}

// The number behind as many records from number x on as a book of so much room takes, of m.
fn upto(x: usize, room: usize, m: usize) -> usize
    requires { (x < m) × (0 < room) }
    ensures { (x < result) × (result ≤ m) }
{
    x + room.min(m - x)
}

// The first of m records from start on that has the key of an earlier one; m where none has: the number
// is kept as a count.
fn first_repeat(f: &[u8], start: usize, m: usize, b: &mut [u32], t: &mut [u8]) -> usize
    requires { Going f.now start m start 0 × (start ≤ length f.now) × (0 < length b.old) }
    ensures { Firstly f.now start m result }
{
    let mut p = start;
    let mut x = 0;
    while x < m {
        let e = upto(x, b.len(), m);
        let q = gather(f, start, m, p, x, e, b, t);
        let r = fresh_of(f, start, m, p, x, e, b, t);
        if r < e {
            return r;
        }
        p = q;
        x = e;
    }
    m
}

// The first of all records from start on that has the key of an earlier one, or has none; the flags t are for the book, whatever they are before.
fn foresee(f: &[u8], start: usize, t: &mut [u8]) -> usize
    requires { (length f.now ≤ 16777216) × (start ≤ length f.now) }
    ensures { Foreseen f.now start result }
{
    let mut b = [4294967295u32; 8176];
    let m = reach(f, start);
    first_repeat(f, start, m, &mut b, t)
}

// Raises all flags.
fn raise_all(t: &mut [u8])
    ensures { Full t.new (length t.new) }
{
    t.fill(255);
}

// Whether the key k of the record after the first m from start on stood earlier. What was found is kept in w from call to call: below 8 it counts the plain
// walks that were taken; after the seventh, the first repeat of all records is found once and for all, and w is 8 more than its number. That takes the flags
// t; from then on they are of no use, and all are raised.
pub fn stood_by(f: &[u8], start: usize, m: usize, k: u64, t: &mut [u8], w: &mut usize) -> bool
    requires { (length f.now ≤ 16777216) × (start ≤ length f.now) × Known f.now start m × Comes f.now start m k × Ahead f.now start m w.old }
    ensures { (result ≡ seen_from f.now start m k) × Sees f.now start w.new × Spared t.old t.new }
{
    let n = *w;
    if n < 7 {
        *w = n + 1;
        return seen(f, start, m, k);
    }
    if n < 8 {
        let d = foresee(f, start, t);
        raise_all(t);
        *w = d + 8;
        return d == m;
    }
    n - 8 == m
}
