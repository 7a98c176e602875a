// A table of places where records begin, and a map of their keys, filled in one pass.
ghost use Rattle.std.specs.Prelude.{◌≡◌, ◌≤◌, ◌<◌, set};
ghost use Rattle.keys.specs.Look.{Sound};
ghost use Rattle.keys.specs.Table.{Tails, Laid};

use crate::look::look_at;
use crate::order::{ascended_to, seal};
use crate::slots::note;
use memory::clearing::zero;

// Puts v at j, if the table has so many entries.
fn put(t: &mut [u32], j: usize, v: u32)
    ensures { t.new ≡ set t.old j v }
{
    if j < t.len() {
        t[j] = v;
    }
}

// How many entries of room are used by i records.
fn used(i: usize, stride: usize, room: usize) -> usize
    requires { (0 < stride) × (i ≤ 16777216) }
    ensures { result ≤ room }
{
    (i / stride).min(room)
}

// Fills the table with the place of one record in each stride, and the map with all keys and with whether they ascend; says how many entries are to be tried.
pub fn spread(f: &[u8], start: usize, stride: usize, t: &mut [u32], map: &mut [u8]) -> usize
    requires { (0 < stride) × (Sound f.now start) × (Tails f.now start t.old) }
    ensures { Laid f.now start t.new result map.new }
{
    zero(map);
    let mut p = start;
    let mut i = 0;
    let mut last = 0;
    let mut ascended = true;
    while let Some(look) = look_at(f, p) {
        put(t, i / stride, p as u32);
        note(map, look.key);
        ascended = ascended_to(ascended, last, look.key);
        last = look.key;
        i += 1;
        p += look.len;
    }
    seal(map, ascended);
    used(i, stride, t.len())
}
