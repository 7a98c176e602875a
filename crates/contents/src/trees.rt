// Number 6 in a record on its own: the tree rule in ATTR and INAS.
ghost use Rattle.std.specs.Prelude.{◌≡◌, true, ◌≤◌, length};
ghost use Rattle.base.specs.Choice.{either};
ghost use Rattle.base.specs.Verdict.{first_fault};
ghost use Rattle.skeleton.specs.Place.{between, fields_at};
ghost use Rattle.skeleton.specs.Shape.{Bounded};
ghost use Rattle.rules.specs.Trees.{tree_stands};
ghost use Rattle.tree.specs.Verdict.{faulty_tuple};
ghost use Rattle.contents.specs.Fit.{fits, all_fit};
ghost use Rattle.contents.specs.Answers.{trees_from, breaks, since};

use base::Fault;
use rules::tags;
use skeleton::directory::Shape;
use skeleton::place::place_at;
use tree::{attr_acts, attr_tree, inas_tree};

// That the tree rule holds in the field r[start..end], else the place of the first tuple that breaks it: of ATTR, the whole rule where
// the record is new, else only parents; of INAS always the whole.
fn tree_stands(r: &[u8], start: usize, end: usize, tag: u32, new: bool) -> Result<(), usize>
    requires { (start ≤ end) × (end ≤ length r.now) × (fits new (record { tag = tag; body = between r.now start end }) ≡ true) }
    ensures { result ≡ first_fault (faulty_tuple (tree_stands new (record { tag = tag; body = between r.now start end }))) }
{
    let b = &r[start..end];
    if tag == tags::ATTR {
        return if new { attr_tree(b) } else { attr_acts(b) };
    }
    if tag == tags::INAS {
        return inas_tree(b);
    }
    Ok(())
}

// Whether a field broke the tree rule, now that the field r[start..end] is passed.
pub fn tree_broken(before: bool, r: &[u8], start: usize, end: usize, tag: u32, new: bool) -> bool
    requires { (start ≤ end) × (end ≤ length r.now) × (fits new (record { tag = tag; body = between r.now start end }) ≡ true) }
    ensures { result ≡ either before (breaks new (record { tag = tag; body = between r.now start end })) }
{
    before || tree_stands(r, start, end, tag, new).is_err()
}

// Whether the tree rule holds in each field from the entry at p on, the second of the record; else 6 at the tuple that breaks it.
fn trees_stand(r: &[u8], h: Shape, p: usize, new: bool) -> Result<(), Fault>
    requires { Bounded h × (2 ≤ p) × (all_fit new (fields_at r.now h p) ≡ true) }
    ensures { result ≡ trees_from r.now h new p 2 }
{
    let mut q = p;
    let mut i = 2;
    while let Some(field) = place_at(r, h, q) {
        if let Err(tuple) = tree_stands(r, field.start, field.end, field.tag, new) {
            return Err(Fault {
                number: 6,
                field: i,
                tuple,
            });
        }
        q = field.next;
        i += 1;
    }
    Ok(())
}

// The same, if a field was noticed to break it.
pub fn trees_again(r: &[u8], h: Shape, p: usize, new: bool, broken: bool) -> Result<(), Fault>
    requires { Bounded h × (2 ≤ p) × (all_fit new (fields_at r.now h p) ≡ true) }
    ensures { result ≡ since broken (trees_from r.now h new p 2) (Ok tt) }
{
    if broken {
        return trees_stand(r, h, p, new);
    }
    Ok(())
}
