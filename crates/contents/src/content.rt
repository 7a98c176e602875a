// Number 5: subfields do not fill a field, or a value is out of its range; and number 6, the tree rule, in the same walk over the fields.
ghost use Rattle.std.specs.Prelude.{◌≡◌, ◌≤◌, length};
ghost use Rattle.base.specs.Check.{bind};
ghost use Rattle.base.specs.Verdict.{verdict_of};
ghost use Rattle.skeleton.specs.Place.{between, fields_at};
ghost use Rattle.skeleton.specs.Shape.{Bounded};
ghost use Rattle.rules.specs.Content.{insert_only, ident_format, format_of, stands, number5};
ghost use Rattle.rules.specs.Trees.{number6};
ghost use Rattle.contents.specs.Answers.{rest_right};

use crate::counts::counts_again;
use crate::formats::{format_of, has_format, ident_format, insert_only};
use crate::identifier::is_stored;
use crate::passed::tag_passed;
use crate::trees::{tree_broken, trees_again};
use base::Fault;
use rules::{Kind, Mode, tags};
use skeleton::directory::Shape;
use skeleton::place::place_at;

// Whether field i, r[start..end], has the format that its tag asks for.
fn field_stands(
    r: &[u8],
    start: usize,
    end: usize,
    tag: u32,
    new: bool,
    i: usize,
) -> Result<(), Fault>
    requires { (start ≤ end) × (end ≤ length r.now) }
    ensures { result ≡ verdict_of (stands i (format_of new tag (between r.now start end)) (between r.now start end)) }
{
    let b = &r[start..end];
    has_format(i, format_of(new, tag, b), b)
}

// Whether the identifier r[start..end] has its format.
fn ident_stands(r: &[u8], start: usize, end: usize, mode: Mode, k: Kind) -> Result<(), Fault>
    requires { (start ≤ end) × (end ≤ length r.now) }
    ensures { result ≡ verdict_of (stands 1 (ident_format (insert_only mode) k) (between r.now start end)) }
{
    has_format(1, ident_format(insert_only(mode), k), &r[start..end])
}

// Numbers 5 and 6 of the fields from the entry at p on, behind the identifier, in one walk; a COCC is noticed on it.
fn rest_right(r: &[u8], h: Shape, p: usize, new: bool) -> Result<(), Fault>
    requires { Bounded h × (2 ≤ p) }
    ensures { result ≡ rest_right r.now h new p }
{
    let mut q = p;
    let mut i = 2;
    let mut controlled = false;
    let mut broken = false;
    while let Some(field) = place_at(r, h, q) {
        field_stands(r, field.start, field.end, field.tag, new, i)?;
        controlled = tag_passed(controlled, field.tag, tags::COCC);
        broken = tree_broken(broken, r, field.start, field.end, field.tag, new);
        q = field.next;
        i += 1;
    }
    counts_again(r, h, p, controlled)?;
    trees_again(r, h, p, new, broken)
}

// Numbers 5 and 6 of a record of kind k.
pub fn check_content_and_trees(r: &[u8], h: Shape, mode: Mode, k: Kind) -> Result<(), Fault>
    requires { Bounded h }
    ensures { result ≡ verdict_of (bind (number5 mode k (fields_at r.now h 24)) (λ _. number6 mode k (fields_at r.now h 24))) }
{
    let Some(ident) = place_at(r, h, 24) else {
        return Ok(());
    };
    ident_stands(r, ident.start, ident.end, mode, k)?;
    let stored = is_stored(r, ident.start, ident.end, mode, k);
    rest_right(r, h, ident.next, stored)
}
