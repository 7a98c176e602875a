// What stands at a place of a record's directory: the work of the reader, over the record's bytes and a number.
ghost use Rattle.std.specs.Prelude.{◌≡◌};
ghost use Rattle.fieldwise.specs.Reader.{led_by, field_here, next_here, body_here};

use skeleton::leader::{Broken, Head, leader};
use skeleton::place::{Place, place_at};

// What the leader of a record says, be it the first one or another.
fn led(r: &[u8]) -> Result<Head, Broken>
    ensures { result ≡ led_by r.now }
{
    match leader(r, true) {
        Ok(head) => Ok(head),
        Err(_) => leader(r, false),
    }
}

// The field whose entry stands at at; of a record whose leader is wrong there is none.
pub fn field_here(r: &[u8], at: usize) -> Option<Place>
    ensures { result ≡ field_here r.now at }
{
    match led(r) {
        Ok(head) => place_at(r, head.shape, at),
        Err(_) => None,
    }
}

// The place of the entry after it; where there is no field, at itself.
pub fn next_here(r: &[u8], at: usize) -> usize
    ensures { result ≡ next_here r.now at }
{
    match field_here(r, at) {
        Some(field) => field.next,
        None => at,
    }
}

// The bytes of the field without the closing 1E; where there is none, no bytes.
pub fn body_here(r: &[u8], at: usize) -> &[u8]
    ensures { result.now ≡ body_here r.now at }
{
    match field_here(r, at) {
        Some(field) => &r[field.start..field.end],
        None => &[],
    }
}
