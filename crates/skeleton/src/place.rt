// The fields of a record whose directory was found right: a step from field to field, and a search.
ghost use Rattle.std.specs.Prelude.{◌≡◌};
ghost use Rattle.skeleton.specs.Place.{place_at, find_from};
ghost use Rattle.skeleton.specs.Shape.{Bounded};

use crate::directory::{Entry, Shape, entry_at};

// A field: its tag, where its body starts and where its closing 1E stands, and the place of the next entry.
#[derive(Clone, Copy)]
pub struct Place {
    pub tag: u32,
    pub start: usize,
    pub end: usize,
    pub next: usize,
}

// The field whose entry stands at p of the directory, if there is one; its body is r[start..end].
pub fn place_at(r: &[u8], h: Shape, p: usize) -> Option<Place>
    requires { Bounded h }
    ensures { result ≡ place_at r.now h p }
{
    match entry_at(r, h.a, h.b, p) {
        Entry::Field {
            tag,
            pos,
            len,
            next,
        } => {
            if len == 0 {
                return None;
            }
            let start = h.base + pos;
            if r.len() < start + len {
                return None;
            }
            Some(Place {
                tag,
                start,
                end: start + len - 1,
                next,
            })
        }
        Entry::End => None,
        Entry::Bad => None,
    }
}

// The first field with the tag, from the entry at p on.
pub fn find(r: &[u8], h: Shape, wanted: u32, p: usize) -> Option<Place>
    requires { Bounded h }
    ensures { result ≡ find_from r.now h wanted p }
{
    let mut q = p;
    while let Some(field) = place_at(r, h, q) {
        if field.tag == wanted {
            return Some(field);
        }
        q = field.next;
    }
    None
}
