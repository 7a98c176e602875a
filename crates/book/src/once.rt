// Whether a record's key stood earlier in a dataset: a larger one never did, nor one whose flag in a map of the present kind's keys is not raised.
// The others are looked for: a key that stands twice, or an RCID that shares its flag with an earlier one.
ghost use Rattle.std.specs.Prelude.{◌≡◌, ◌/◌, ◌≤◌, length};
ghost use Rattle.keys.specs.Listed.{seen_from};
ghost use Rattle.keys.specs.Map.{kind_in};
ghost use Rattle.keys.specs.Once.{Renewed, Once, Comes};
ghost use Rattle.book.specs.First.{Sees, Ahead, Said};
ghost use Rattle.book.specs.Spared.{Spared};

use crate::first::stood_by;
use keys::bits::{flag, raise};
use memory::clearing::zero;

// Whether k is among the keys of the first m records from start on; its kind is not before that of the largest of them.
fn stood(f: &[u8], start: usize, m: usize, top: u64, k: u64, t: &mut [u8], w: &mut usize) -> bool
    requires ahead { (length f.now ≤ 16777216) × (start ≤ length f.now) × Comes f.now start m k × Ahead f.now start m w.old }
    requires once { (Once f.now start m top t.old) × (kind_in top ≤ kind_in k) }
    ensures { (result ≡ seen_from f.now start m k) × Sees f.now start w.new × Spared t.old t.new }
{
    if top < k {
        return false;
    }
    let j = (k % 262144) as usize;
    if j / 8 < t.len() && !flag(t, j) {
        return false;
    }
    stood_by(f, start, m, k, t, w)
}

// Empties the map where the kind is another.
fn renew(t: &mut [u8], old: u64, new: u64)
    ensures { Renewed old new t.old t.new }
{
    if old != new {
        zero(t);
    }
}

// Whether the key k of the record after the first m from start on stood earlier; if not, it joins the map.
pub fn repeats(
    f: &[u8],
    start: usize,
    m: usize,
    top: u64,
    k: u64,
    t: &mut [u8],
    w: &mut usize,
) -> bool
    requires ahead { (length f.now ≤ 16777216) × (start ≤ length f.now) × Ahead f.now start m w.old }
    requires once { (Once f.now start m top t.old) × (Comes f.now start m k) × (kind_in top ≤ kind_in k) }
    ensures { Said f.now start m top k t.old t.new w.new result }
{
    if stood(f, start, m, top, k, t, w) {
        return true;
    }
    renew(t, top / 4294967296, k / 4294967296);
    raise(t, (k % 262144) as usize);
    false
}
