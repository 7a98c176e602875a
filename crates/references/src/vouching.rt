// Whether a record that is named exists, where neither the map nor the order of keys tells: the RCIDs that are named from there on are put into a book
// by the thousand, and all records of the file are held against it.
ghost use Rattle.std.specs.Prelude.{◌≡◌, true, ◌<◌, length};
ghost use Rattle.keys.specs.Listed.{has_from};
ghost use Rattle.keys.specs.Look.{Sound};
ghost use Rattle.references.specs.Vouched.{Vouched, Aided};

use crate::collecting::collect;
use book::order::sort;
use book::rcids::{enter, spot};
use keys::bits::flag;
use keys::look::look_at;
use keys::order::ordered;
use keys::present::has;
use keys::sites::site_plain;
use keys::slots::slot;

// Whether the book says that a record with the key was found.
fn vouched(f: &[u8], start: usize, b: &[u32], k: &[u8], key: u64) -> bool
    requires { Vouched f.now start b.now k.now }
    ensures { result ≡ true → has_from f.now start key ≡ true }
{
    let j = spot(b, k, key);
    0 < j && j / 8 < k.len() && flag(k, j)
}

// All records are held against the book.
fn vouch_all(f: &[u8], start: usize, b: &[u32], k: &mut [u8])
    requires { Sound f.now start × Vouched f.now start b.now k.old }
    ensures { Vouched f.now start b.now k.new }
{
    let mut p = start;
    while let Some(look) = look_at(f, p) {
        enter(b, k, look.key);
        p += look.len;
    }
}

// A new book: of the keys that are named from `from` of the field on whose entry stands at q of the record at p.
fn refill(f: &[u8], start: usize, p: usize, q: usize, from: usize, b: &mut [u32], k: &mut [u8])
    requires { Sound f.now start × (0 < length b.old) }
    ensures { Vouched f.now start b.new k.new }
{
    collect(f, p, q, from, b, k);
    sort(b);
    vouch_all(f, start, b, k);
}

// Whether a record has the key, by a new book if need be.
fn found(
    f: &[u8],
    start: usize,
    p: usize,
    q: usize,
    from: usize,
    key: u64,
    b: &mut [u32],
    k: &mut [u8],
) -> bool
    requires { Sound f.now start × Vouched f.now start b.old k.old }
    ensures { (result ≡ has_from f.now start key) × Vouched f.now start b.new k.new }
{
    if vouched(f, start, b, k, key) {
        return true;
    }
    refill(f, start, p, q, from, b, k);
    vouched(f, start, b, k, key) || site_plain(f, start, key).is_some()
}

// Whether a record has the key that is named at `from` of the field whose entry stands at q of the record at p.
pub fn exists(
    f: &[u8],
    start: usize,
    t: &mut [u32],
    n: usize,
    map: &[u8],
    p: usize,
    q: usize,
    from: usize,
    key: u64,
    k: &mut [u8],
) -> bool
    requires { Aided f.now start t.old n map.now k.old }
    ensures { (result ≡ has_from f.now start key) × Aided f.now start t.new n map.now k.new }
{
    if let Some(s) = slot(key)
        && s / 8 < map.len()
    {
        return flag(map, s);
    }
    if ordered(map) {
        return has(f, start, t, n, map, key);
    }
    found(f, start, p, q, from, key, t, k)
}
