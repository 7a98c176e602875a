// The parent of each item in turn by a table of the parents at each depth, where looking back would take long.
ghost use Rattle.std.specs.Prelude.{◌≡◌, List, ℕ, ◌+◌, ◌*◌, ◌≤◌, ◌<◌, length};
ghost use Rattle.items.specs.Items.{depth_of, under};
ghost use Rattle.numbering.specs.Numbers.{parent_before};
ghost use Rattle.numbering.specs.Block.{ParentsTo, Parents};

use crate::back::parent_before;
use items::depth_under;
use items::item::number;

// Place i is the parent at the depths from `shallow` to `depth`, as far as the table goes.
fn deepen(parents: &mut [u16], i: usize, shallow: usize, depth: usize)
    requires { i < 65536 }
    ensures { (w : List ℕ) → shallow ≡ under w i → Parents w i parents.old → ParentsTo (depth + 1) w i parents.new }
{
    for d in shallow..parents.len() {
        if depth < d {
            return;
        }
        parents[d] = i as u16;
    }
}

// The place of the parent of item i, which the table is then behind; 0 for none.
pub fn next_parent(w: &[u8], i: usize, parents: &mut [u16]) -> usize
    requires { (8 * i + 8 ≤ length w.now) × (length w.now < 524288) × Parents w.now i parents.old }
    ensures { (result ≡ parent_before w.now (depth_of w.now i) i) × (result ≤ i) × Parents w.now (i + 1) parents.new }
{
    let depth = number(w, 8 * i);
    let shallow = depth_under(w, i);
    deepen(parents, i, shallow, depth);
    if depth < parents.len() {
        usize::from(parents[depth])
    } else {
        parent_before(w, i, depth)
    }
}

// Brings the table up to item x.
pub fn know_parents(w: &[u8], x: usize, parents: &mut [u16])
    requires { (8 * x ≤ length w.now) × (length w.now < 524288) }
    ensures { Parents w.now x parents.new }
{
    for i in 0..x {
        next_parent(w, i, parents);
    }
}
