// The keys of a record's associations, INAS and SPAS, one by one, and each as one number.
ghost use Rattle.std.specs.Prelude.{◌≡◌, true, false, [], ◌∷◌, ◌+◌, ◌-◌, ◌≤◌, ◌<◌, length, drop};
ghost use Rattle.fields.specs.Bytes.{le};
ghost use Rattle.fields.specs.Table.{head_of, tuple_of};
ghost use Rattle.fields.specs.Content.{fill};
ghost use Rattle.skeleton.specs.Place.{fields_at};
ghost use Rattle.skeleton.specs.Shape.{Bounded};
ghost use Rattle.rules.specs.Content.{inas_format};
ghost use Rattle.rules.specs.Associations.{inas_key};
ghost use Rattle.contents.specs.Fit.{all_fit};
ghost use Rattle.contents.specs.Keys.{list_of};
ghost use Rattle.contents.specs.Codes.{code_of, walk_from, Walks, Steps};

use crate::earlier::{Key, inas_key};
use fields::{le8, le32};
use rules::tags;
use skeleton::directory::Shape;
use skeleton::place::place_at;

// Where a walk stands: at offset `at` of the SPAS from start to end, and then at the entry `next`.
#[derive(Clone, Copy)]
pub struct Walk {
    pub next: usize,
    pub start: usize,
    pub end: usize,
    pub at: usize,
}

// A key as one number: what is left out of it is the same in all keys of its sort.
fn code(key: Key) -> u64
    ensures { result ≡ code_of (list_of key) }
{
    match key {
        Key::Information(_, y, z, w) => y as u64 * 4294967296 + (z as u64 * 65536 + w as u64),
        Key::Spatial(x, y) => y as u64 * 4294967296 + (x as u64 * 65536 + 65535),
    }
}

// The code of an INAS.
fn inas_code(b: &[u8]) -> u64
    requires { fill (head_of (inas_format false b.now)) (tuple_of (inas_format false b.now)) b.now ≡ true }
    ensures { result ≡ code_of (inas_key b.now) }
{
    code(inas_key(b))
}

// The code of the tuple at `at` of a SPAS.
fn tuple_code(b: &[u8], at: usize) -> u64
    requires { at + 5 ≤ length b.now }
    ensures { result ≡ code_of (le 1 (drop at b.now) ∷ le 4 (drop (at + 1) b.now) ∷ []) }
{
    code(Key::Spatial(le8(b, at), le32(b, at + 1)))
}

// A walk from the entry at p on.
pub fn begin(p: usize) -> Walk
    ensures { result ≡ walk_from p }
{
    Walk {
        next: p,
        start: 0,
        end: 0,
        at: 0,
    }
}

// The code of the tuple at which a walk stands, and the walk behind it.
fn tuple(r: &[u8], h: Shape, w: Walk) -> (u64, Walk)
    requires { Walks r.now h w × (w.at < w.end - w.start) }
    ensures { Steps r.now h w (Some result) }
{
    let code = tuple_code(&r[w.start..w.end], w.at);
    (code, Walk { at: w.at + 15, ..w })
}

// The code of the first key of the fields from the entry at p on, and the walk behind it; none where they have no key.
fn first(r: &[u8], h: Shape, p: usize) -> Option<(u64, Walk)>
    requires { Bounded h × (all_fit false (fields_at r.now h p) ≡ true) }
    ensures { Steps r.now h (walk_from p) result }
{
    let mut q = p;
    while let Some(field) = place_at(r, h, q) {
        if field.tag == tags::INAS {
            return Some((inas_code(&r[field.start..field.end]), begin(field.next)));
        }
        if field.tag == tags::SPAS && field.start < field.end {
            let spas = Walk {
                next: field.next,
                start: field.start,
                end: field.end,
                at: 0,
            };
            return Some(tuple(r, h, spas));
        }
        q = field.next;
    }
    None
}

// One step of a walk: the next code, and the walk behind it; none where no key is left.
pub fn advance(r: &[u8], h: Shape, w: Walk) -> Option<(u64, Walk)>
    requires { Bounded h × Walks r.now h w }
    ensures { Steps r.now h w result }
{
    if w.at < w.end - w.start {
        return Some(tuple(r, h, w));
    }
    first(r, h, w.next)
}
