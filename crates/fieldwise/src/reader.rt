// A reader of one record: it stands over the caller's bytes and steps from field to field. Its functions are thin;
// the work is done by the functions of `places`, which take the bytes and the place.
ghost use Rattle.std.specs.Prelude.{◌≡◌};
ghost use Rattle.fieldwise.specs.Reader.{field_here, next_here, body_here};

use crate::places::{body_here, field_here, next_here};
use skeleton::place::Place;

// The record, and the place of a directory entry in it.
#[derive(Clone, Copy)]
pub struct Fields<'a> {
    pub rec: &'a [u8],
    pub at: usize,
}

// The reader at the first field of a record.
pub fn start<'a>(rec: &'a [u8]) -> Fields<'a>
    ensures { result ≡ record { rec = rec.entry; at = 24 } }
{
    Fields { rec, at: 24 }
}

// The field where the reader stands; none behind the last, and none in a record whose leader is wrong.
pub fn here<'a>(f: Fields<'a>) -> Option<Place>
    ensures { result ≡ field_here f.entry.rec.now f.entry.at }
{
    field_here(f.rec, f.at)
}

// Its bytes.
pub fn body<'a>(f: Fields<'a>) -> &'a [u8]
    ensures { result.now ≡ body_here f.entry.rec.now f.entry.at }
{
    body_here(f.rec, f.at)
}

// The reader moved on by one field.
pub fn next<'a>(f: Fields<'a>) -> Fields<'a>
    ensures { result ≡ record { rec = f.entry.rec; at = next_here f.entry.rec.now f.entry.at } }
{
    Fields {
        rec: f.rec,
        at: next_here(f.rec, f.at),
    }
}
