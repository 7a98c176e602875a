// Where a record with a key stands in a file: by the map, there is none; or near by; or by a plain walk.
ghost use Rattle.std.specs.Prelude.{◌≡◌, IfSome};
ghost use Rattle.keys.specs.Listed.{keys_from, EachOnce};
ghost use Rattle.keys.specs.Look.{Sound};
ghost use Rattle.keys.specs.Places.{Names, site_in};
ghost use Rattle.keys.specs.Table.{Tail, Laid, start_near};

use crate::bits::flag;
use crate::look::look_at;
use crate::order::{ordered, site_ordered};
use crate::slots::slot;

// A plain walk over the records from start on.
pub fn site_plain(f: &[u8], start: usize, key: u64) -> Option<usize>
    requires { Sound f.now start }
    ensures { result ≡ site_in f.now start key }
{
    let mut p = start;
    while let Some(look) = look_at(f, p) {
        if look.key == key {
            return Some(p);
        }
        p += look.len;
    }
    None
}

// A place from which to look for the key, by halves: the right one where the keys ascend.
pub fn start_near(f: &[u8], start: usize, t: &[u32], n: usize, map: &[u8], key: u64) -> usize
    requires { Laid f.now start t.now n map.now }
    ensures { result ≡ start_near f.now start t.now n key }
{
    let mut p = start;
    let mut lo = 0;
    let mut hi = n;
    while lo < hi {
        let mid = lo + (hi - lo) / 2;
        let q = t[mid] as usize;
        let Some(look) = look_at(f, q) else {
            return p;
        };
        if look.key <= key {
            p = q;
            lo = mid + 1;
        } else {
            hi = mid;
        }
    }
    p
}

// The first of the next records, up to one whose key is larger, that has the key; none says nothing of the records behind them.
pub fn site_near(f: &[u8], start: usize, from: usize, steps: usize, key: u64) -> Option<usize>
    requires { Tail f.now start from }
    ensures { IfSome result (Names f.now start key) }
{
    let mut p = from;
    for _ in 0..steps {
        let look = look_at(f, p)?;
        if look.key == key {
            return Some(p);
        }
        if key < look.key {
            return None;
        }
        p += look.len;
    }
    None
}

// The same with the table, of which n entries are to be tried: near by, or else, if the keys do not ascend, by a plain walk.
fn site_walk(f: &[u8], start: usize, t: &[u32], n: usize, map: &[u8], key: u64) -> Option<usize>
    requires { Laid f.now start t.now n map.now × EachOnce (keys_from f.now start) }
    ensures { result ≡ site_in f.now start key }
{
    let p = start_near(f, start, t, n, map, key);
    if ordered(map) {
        return site_ordered(f, start, p, key);
    }
    if let Some(q) = site_near(f, start, p, 512, key) {
        return Some(q);
    }
    site_plain(f, start, key)
}

// Where the record from start on that has the key begins, in a file whose keys stand once.
pub fn site(f: &[u8], start: usize, t: &[u32], n: usize, map: &[u8], key: u64) -> Option<usize>
    requires { Laid f.now start t.now n map.now × EachOnce (keys_from f.now start) }
    ensures { result ≡ site_in f.now start key }
{
    if let Some(s) = slot(key)
        && s / 8 < map.len()
        && !flag(map, s)
    {
        return None;
    }
    site_walk(f, start, t, n, map, key)
}
