// The loading of a stored field.
ghost use Rattle.std.specs.Prelude.{◌≡◌, true, ◌-◌, ◌≤◌, ◌<◌, length};
ghost use Rattle.base.specs.Check.{pass, passed};
ghost use Rattle.skeleton.specs.Place.{between};
ghost use Rattle.fields.specs.Table.{head_of, tuple_of};
ghost use Rattle.fields.specs.Content.{fill};
ghost use Rattle.fields.specs.declared.Format.TheVariants.{AttrNew};
ghost use Rattle.rules.specs.Trees.{attr_tree};
ghost use Rattle.items.specs.Loaded.{Loaded};

use crate::item::{depth_under, number, put_item};

// Loads the ATTR field from `at` up to `end`, which obeys the tree rule, as items of w; how many there are. x names the slice b for the values.
pub fn load(b: &[u8], at: usize, end: usize, x: u8, w: &mut [u8]) -> usize
    requires { (at ≤ end) × (end ≤ length b.now) × (end ≤ 16777216) × (end - at ≤ length w.old) × (length w.old < 524288)
        × (fill (head_of AttrNew) (tuple_of AttrNew) (between b.now at end) ≡ true) × (passed (attr_tree (between b.now at end)) ≡ pass) }
    ensures { Loaded b.now at end x w.new result }
{
    let mut a = at;
    let mut i: usize = 0;
    while a < end {
        let parent = number(b, a + 4);
        let depth = depth_under(w, parent);
        let code = number(b, a);
        put_item(w, i, depth, code, a + 7, x);
        a = tree::tuple::behind(b, a);
        i += 1;
    }
    i
}
