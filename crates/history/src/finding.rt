// A record of the dataset, found by its key and brought into the workspace.
ghost use Rattle.std.specs.Prelude.{◌≡◌, List, ℕ, ◌≤◌, ◌<◌, length};
ghost use Rattle.std.proofs.Math.Option.{some};
ghost use Rattle.sequence.specs.Keyed.{Once};
ghost use Rattle.updates.specs.Acts.{chart};
ghost use Rattle.updates.specs.Accepted.{Writable};
ghost use Rattle.stock.specs.Stock.{rec_in, stock_from, Stock};
ghost use Rattle.keys.specs.Places.{site_in};
ghost use Rattle.keys.specs.Table.{Laid};
ghost use Rattle.skeleton.specs.Place.{between};
ghost use Rattle.sorting.specs.Places.{Indexed};
ghost use Rattle.version.specs.Present.{HeldAs, FlagsKept};
ghost use Rattle.history.specs.Here.{record_here};

use keys::look::{key_at, kind_of};
use loading::record::load_record;
use skeleton::file::record_at;
use sorting::found::site_by;
use sorting::limits::{Limits, old_index};
use version::Version;

// Where the dataset's record with the key begins; none where there is no such record.
pub fn locate(
    d: &[u8],
    ds: usize,
    t: &[u32],
    n: usize,
    map: &[u8],
    out: &[u8],
    lim: Limits,
    key: u64,
) -> Option<usize>
    requires laid { Laid d.now ds t.now n map.now × Stock d.now ds × Once chart (stock_from d.now ds) }
    requires indexed { (lim.old ≤ lim.new) × (lim.new ≤ length out.now) × Indexed d.now ds (between out.now lim.old lim.new) }
    ensures { result ≡ site_in d.now ds key }
{
    site_by(d, ds, t, n, map, old_index(out, lim), key)
}

// The dataset's record at `at`; none where none stands.
pub fn load_at(d: &[u8], at: usize, work: &mut [u8]) -> Option<Version>
    requires { Stock d.now at × (at < length d.now) × (length d.now ≤ 16777216) × (400000 ≤ length work.old) }
    ensures { ((u : List ℕ) → Writable (rec_in (record_here d.now at)) → HeldAs d.now u work.new result (some (rec_in (record_here d.now at))))
        × FlagsKept work.old work.new }
{
    let Ok(head) = record_at(d, at) else {
        return None;
    };
    let k = kind_of(key_at(d, at + head.shape.base));
    Some(load_record(d, at, head.len, head.shape, 0, k, work))
}
