// Keys that ascend: found out, said by the flag behind all places of keys in the map, and used to tell near by that a key is absent.
ghost use Rattle.std.specs.Prelude.{◌≡◌};
ghost use Rattle.keys.specs.Bits.{flag_of};
ghost use Rattle.keys.specs.Listed.{keys_from};
ghost use Rattle.keys.specs.Order.{Ascending, ascended_to, sealed};
ghost use Rattle.keys.specs.Places.{site_in};
ghost use Rattle.keys.specs.Table.{Close};

use crate::bits::{flag, raise};
use crate::look::look_at;

// Whether keys that ascended up to last do so with one more.
pub fn ascended_to(so: bool, last: u64, key: u64) -> bool
    ensures { result ≡ ascended_to so last key }
{
    so && last < key
}

// Raises the flag that says that the keys ascend, if they do so; where the map ends before it, nothing.
pub fn seal(map: &mut [u8], so: bool)
    ensures { map.new ≡ sealed map.old so }
{
    if so {
        raise(map, 262144);
    }
}

// Whether the map says that the keys ascend.
pub fn ordered(map: &[u8]) -> bool
    ensures { result ≡ flag_of map.now 262144 }
{
    32768 < map.len() && flag(map, 262144)
}

// Where one of the records from start on has the key, where the keys ascend: a walk up to the first larger one.
pub fn site_ordered(f: &[u8], start: usize, from: usize, key: u64) -> Option<usize>
    requires { (Close f.now start key from) × (Ascending (keys_from f.now start)) }
    ensures { result ≡ site_in f.now start key }
{
    let mut p = from;
    while let Some(look) = look_at(f, p) {
        if look.key == key {
            return Some(p);
        }
        if key < look.key {
            return None;
        }
        p += look.len;
    }
    None
}
