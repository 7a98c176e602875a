// The order of a record's fields (number 4).
ghost use Rattle.std.specs.Prelude.{◌≡◌, ◌<◌, ◌≤◌, length};
ghost use Rattle.base.specs.Verdict.{first_fault};
ghost use Rattle.skeleton.specs.RightFrom.{RightFrom};
ghost use Rattle.skeleton.specs.Shape.{Bounded};
ghost use Rattle.records.specs.Order.{shut_out, order_from};
ghost use Rattle.rules.specs.Grammar.{forbidden};
ghost use Rattle.rules.specs.declared.Mode.TheVariants.{InUpdate};

use crate::rows::row_after;
use rules::{Mode, tags};
use skeleton::directory::{Shape, tag_at};

// What a record's instructions are, as far as they decide which fields it takes; general: it has none.
#[derive(Clone, Copy)]
pub struct Instructions {
    pub general: bool,
    pub mode: Mode,
    pub ruin: u8,
    pub coui: u8,
    pub controlled: bool,
}

// Whether the instructions of an update record do not take a field with this tag.
fn not_taken(ruin: u8, coui: u8, controlled: bool, tag: u32) -> bool
    ensures { result ≡ forbidden InUpdate ruin coui controlled tag }
{
    if ruin == 2 {
        return true;
    }
    if tag == tags::COCC {
        return ruin == 1;
    }
    if tag != tags::C2IL {
        return false;
    }
    if coui == 2 {
        return true;
    }
    if ruin != 3 {
        return false;
    }
    !controlled
}

// Whether the instructions do not take a field with this tag.
fn shut_out(s: Instructions, tag: u32) -> bool
    ensures { result ≡ shut_out s tag }
{
    if s.general {
        return false;
    }
    match s.mode {
        Mode::InDataset => tag == tags::COCC,
        Mode::InUpdate => not_taken(s.ruin, s.coui, s.controlled, tag),
    }
}

// That all fields, from the second entry on, stand in the order of the rows and none is shut out; else the number of the first that does not.
// The directory was found right: tags are read, and no numbers.
pub fn order(r: &[u8], h: Shape, p: usize, tags: &[u32], s: Instructions) -> Result<(), usize>
    requires { Bounded h × (2 ≤ p) × (length tags.now < 1000) × RightFrom r.now h p }
    ensures { result ≡ first_fault (order_from r.now h tags.now s p 0 2) }
{
    let mut q = p;
    let mut j = 0;
    let mut i = 2;
    while r[q] != 0x1e {
        let tag = tag_at(r, q);
        if shut_out(s, tag) {
            return Err(i);
        }
        let Some(k) = row_after(tags, tag, j) else {
            return Err(i);
        };
        j = k;
        q += 4 + h.a + h.b;
        i += 1;
    }
    Ok(())
}
