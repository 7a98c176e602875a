// Where the fields of the result's general record come from.
ghost use Rattle.std.specs.Prelude.{◌≡◌, ◌+◌, ◌≤◌, ◌<◌, length, get_or};
ghost use Rattle.memory.specs.Wrote.{Wrote};
ghost use Rattle.skeleton.specs.Emit.{sizes, contents};
ghost use Rattle.skeleton.specs.Shape.{Bounded};
ghost use Rattle.following.specs.Merging.{general_parts, Sourced, newer_at, AtMostOne, Measured};

use memory::writing::{put_byte, put_part};
use rules::tags;
use skeleton::directory::Shape;
use skeleton::place::find;

// A field by its tag: in the update or in the dataset, from a place up to another; or in neither.
// An enum of its own: a `Result` of an `Option` would nest these three outcomes.
#[derive(Clone, Copy)]
pub enum Source {
    Sent(usize, usize),
    Kept(usize, usize),
    Neither,
}

// The tags of the general record in their order: DSID, DSSI, ATCS, ITCS, FTCS, IACS, FACS, ARCS.
pub const TAGS: [u32; 8] = [
    tags::DSID,
    tags::DSSI,
    tags::ATCS,
    tags::ITCS,
    tags::FTCS,
    tags::IACS,
    tags::FACS,
    tags::ARCS,
];

// The field with a tag that stands at most once in each: the update's if there, else the dataset's.
fn source_of(old: &[u8], ho: Shape, new: &[u8], hn: Shape, tag: u32) -> Source
    requires { Bounded ho × Bounded hn × AtMostOne old.now ho tag × AtMostOne new.now hn tag }
    ensures { Sourced old.now ho new.now hn tag result }
{
    if let Some(field) = find(new, hn, tag, 24) {
        return Source::Sent(field.start, field.end);
    }
    match find(old, ho, tag, 24) {
        Some(field) => Source::Kept(field.start, field.end),
        None => Source::Neither,
    }
}

// Its size, its 1E included; 0 where there is none, since sizes are added up.
pub fn part_size(old: &[u8], ho: Shape, new: &[u8], hn: Shape, tag: u32) -> usize
    requires { Bounded ho × Bounded hn × (length old.now ≤ 16777216) × (length new.now ≤ 16777216) × AtMostOne old.now ho tag × AtMostOne new.now hn tag }
    ensures { Measured tag (newer_at old.now ho new.now hn tag) result }
{
    match source_of(old, ho, new, hn, tag) {
        Source::Sent(start, end) => end - start + 1,
        Source::Kept(start, end) => end - start + 1,
        Source::Neither => 0,
    }
}

// Its body with its 1E, written.
pub fn put_body(
    old: &[u8],
    ho: Shape,
    new: &[u8],
    hn: Shape,
    tag: u32,
    out: &mut [u8],
    at: usize,
) -> usize
    requires bounded { Bounded ho × Bounded hn × AtMostOne old.now ho tag × AtMostOne new.now hn tag }
    requires tag_in_bounds { at + sizes (newer_at old.now ho new.now hn tag) ≤ length out.old }
    ensures { Wrote at (contents (newer_at old.now ho new.now hn tag)) out.old result out.new }
{
    match source_of(old, ho, new, hn, tag) {
        Source::Sent(start, end) => {
            let p = put_part(out, at, new, start, end - start);
            put_byte(out, p, 30)
        }
        Source::Kept(start, end) => {
            let p = put_part(out, at, old, start, end - start);
            put_byte(out, p, 30)
        }
        Source::Neither => at,
    }
}
