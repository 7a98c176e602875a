// The rows of a grammar: which field may stand where.
ghost use Rattle.std.specs.Prelude.{◌≡◌, ◌+◌, ◌<◌, ◌≤◌, length};
ghost use Rattle.base.specs.Choice.{pick};
ghost use Rattle.records.specs.Rows.{stands_often, row_after};

use rules::tags;

// Whether fields with this tag, INAS, C2IL or SPAS, may stand any number of times.
fn stands_often(tag: u32) -> bool
    ensures { result ≡ stands_often tag }
{
    matches!(tag, tags::INAS | tags::C2IL | tags::SPAS)
}

// The place of the rows that are left after a row: the same where its field may stand again.
fn behind(tag: u32, j: usize) -> usize
    requires { j < 1000 }
    ensures { result ≡ pick (stands_often tag) j (j + 1) }
{
    if stands_often(tag) { j } else { j + 1 }
}

// The rows that a field with this tag leaves, of those from place `from` on, as a place among them; none where it may not stand, which is no refusal by
// itself: the caller says 4 at the field.
pub fn row_after(tags: &[u32], tag: u32, from: usize) -> Option<usize>
    requires { (from ≤ length tags.now) × (length tags.now < 1000) }
    ensures { result ≡ row_after tags.now tag from }
{
    for j in from..tags.len() {
        if tags[j] == tag {
            return Some(behind(tag, j));
        }
    }
    None
}
