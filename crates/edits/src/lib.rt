// The working form of a record's attributes edited by the ATTR of an update.
#![tactic(auto)]

use base::Fault;

pub mod acting;
pub mod block;
pub mod search;
pub mod single;
pub mod walking;

ghost use Rattle.std.specs.Prelude.{◌≡◌, true, ◌+◌, ◌-◌, ◌*◌, ◌≤◌, ◌<◌, length};
ghost use Rattle.base.specs.Check.{pass, passed};
ghost use Rattle.skeleton.specs.Place.{between};
ghost use Rattle.fields.specs.Table.{head_of, tuple_of};
ghost use Rattle.fields.specs.Content.{fill};
ghost use Rattle.fields.specs.declared.Format.TheVariants.{Attr};
ghost use Rattle.rules.specs.Trees.{attr_acts};
ghost use Rattle.edits.specs.Applied.{Applied};

// Applies the ATTR field from `at` up to `end` of the update u, which has passed the first pass, to the n items of w; how many items there are then,
// or the fault at a tuple of the field.
pub fn edit_attr(u: &[u8], at: usize, end: usize, w: &mut [u8], n: usize) -> Result<usize, Fault>
    requires { (at ≤ end) × (end ≤ length u.now) × (end ≤ 16777216) × (8 * n + (end - at) ≤ length w.old) × (length w.old < 524288)
        × (fill (head_of Attr) (tuple_of Attr) (between u.now at end) ≡ true) × (passed (attr_acts (between u.now at end)) ≡ pass) }
    ensures { Applied u.now at end w.old n w.new result }
{
    let (_, _, m) = acting::acts(u, end, at, 0, 1, w, n, 0, 0, false)?;
    Ok(m)
}
