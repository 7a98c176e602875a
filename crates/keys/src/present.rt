// Whether a key stands in a file: by the map; or near by, where the keys ascend; or by a record near by that has it; or, where there is none, by a plain walk.
ghost use Rattle.std.specs.Prelude.{◌≡◌};
ghost use Rattle.keys.specs.Listed.{has_from};
ghost use Rattle.keys.specs.Table.{Laid};

use crate::bits::flag;
use crate::order::{ordered, site_ordered};
use crate::sites::{site_near, site_plain, start_near};
use crate::slots::slot;

// Whether the key is among those of the records from start on; n is how many entries of the table are to be tried.
pub fn has(f: &[u8], start: usize, t: &[u32], n: usize, map: &[u8], key: u64) -> bool
    requires { Laid f.now start t.now n map.now }
    ensures { result ≡ has_from f.now start key }
{
    if let Some(s) = slot(key)
        && s / 8 < map.len()
    {
        return flag(map, s);
    }
    let p = start_near(f, start, t, n, map, key);
    if ordered(map) {
        return site_ordered(f, start, p, key).is_some();
    }
    site_near(f, start, p, 512, key).is_some() || site_plain(f, start, key).is_some()
}
