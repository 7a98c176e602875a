// Whether and where a key stands in a file, by an index of its records where there is one.
ghost use Rattle.std.specs.Prelude.{◌≡◌};
ghost use Rattle.keys.specs.Listed.{keys_from, has_from, EachOnce};
ghost use Rattle.keys.specs.Places.{site_in};
ghost use Rattle.keys.specs.Table.{Laid};
ghost use Rattle.sorting.specs.Places.{Indexed};

use crate::index::next;
use keys::present::has;
use keys::sites::site;
use keys::slots::slot;

// Where the record from start on that has the key begins, in a file whose keys stand once.
pub fn site_by(
    f: &[u8],
    start: usize,
    t: &[u32],
    n: usize,
    map: &[u8],
    index: &[u8],
    key: u64,
) -> Option<usize>
    requires { Laid f.now start t.now n map.now × Indexed f.now start index.now × EachOnce (keys_from f.now start) }
    ensures { result ≡ site_in f.now start key }
{
    if index.is_empty() {
        return site(f, start, t, n, map, key);
    }
    let p = next(f, start, index, start, key);
    (p < f.len()).then_some(p)
}

// Whether the key is among those of the records from start on. The map is the quickest, where it has a place for the key.
pub fn has_by(
    f: &[u8],
    start: usize,
    t: &[u32],
    n: usize,
    map: &[u8],
    index: &[u8],
    key: u64,
) -> bool
    requires { Laid f.now start t.now n map.now × Indexed f.now start index.now }
    ensures { result ≡ has_from f.now start key }
{
    if index.is_empty() || slot(key).is_some() {
        return has(f, start, t, n, map, key);
    }
    next(f, start, index, start, key) < f.len()
}
