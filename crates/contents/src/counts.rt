// NCOR against the number of coordinate tuples that the record sends (number 5).
ghost use Rattle.std.specs.Prelude.{◌≡◌, true, false, ◌≤◌, length, eqb};
ghost use Rattle.base.specs.Choice.{both};
ghost use Rattle.skeleton.specs.Place.{between, fields_at};
ghost use Rattle.skeleton.specs.Shape.{Bounded};
ghost use Rattle.rules.specs.Tags.{COCC};
ghost use Rattle.rules.specs.Coordinates.{sent, place_in};
ghost use Rattle.rules.specs.Content.{miscounts};
ghost use Rattle.contents.specs.Fit.{fits, all_fit};
ghost use Rattle.contents.specs.Answers.{sent_in, send_from, counted_from, since};

use base::Fault;
use fields::{le8, le16};
use rules::tags;
use skeleton::directory::Shape;
use skeleton::place::place_at;

// How many tuples, of 8 bytes each, a field of so many bytes sends: none if it is no C2IL.
fn sent_in(tag: u32, bytes: usize) -> usize
    ensures { result ≡ sent_in tag bytes }
{
    if tag == tags::C2IL { bytes / 8 } else { 0 }
}

// Whether the fields from the entry at p on send n tuples: counted down, so that no sum can grow too large.
fn sends(r: &[u8], h: Shape, p: usize, n: usize) -> bool
    requires { Bounded h }
    ensures { result ≡ send_from r.now h p n }
{
    let mut q = p;
    let mut left = n;
    while let Some(field) = place_at(r, h, q) {
        let here = sent_in(field.tag, field.end - field.start);
        if left < here {
            return false;
        }
        left -= here;
        q = field.next;
    }
    left == 0
}

// Whether the field r[start..end] is a COCC that names another number of tuples than the fields from p on send; in a delete it says how many go.
fn is_miscount(r: &[u8], h: Shape, p: usize, tag: u32, start: usize, end: usize) -> bool
    requires { Bounded h × (start ≤ end) × (end ≤ length r.now) × (fits false (record { tag = tag; body = between r.now start end }) ≡ true) }
    ensures { result ≡ both (eqb tag COCC) (miscounts (length (sent (fields_at r.now h p))) (place_in (between r.now start end))) }
{
    if tag != tags::COCC {
        return false;
    }
    let b = &r[start..end];
    if le8(b, 0) == 2 {
        return false;
    }
    !sends(r, h, p, le16(b, 3) as usize)
}

// Whether no COCC among the fields from the entry at p on, the second of the record, miscounts; else 5.
fn check_counts(r: &[u8], h: Shape, p: usize) -> Result<(), Fault>
    requires { Bounded h × (2 ≤ p) × (all_fit false (fields_at r.now h p) ≡ true) }
    ensures { result ≡ counted_from r.now h p p 2 }
{
    let mut q = p;
    let mut i = 2;
    while let Some(field) = place_at(r, h, q) {
        if is_miscount(r, h, p, field.tag, field.start, field.end) {
            return Err(Fault {
                number: 5,
                field: i,
                tuple: 0,
            });
        }
        q = field.next;
        i += 1;
    }
    Ok(())
}

// The same, if a COCC was noticed: without one there is no NCOR.
pub fn counts_again(r: &[u8], h: Shape, p: usize, controlled: bool) -> Result<(), Fault>
    requires { Bounded h × (2 ≤ p) × (all_fit false (fields_at r.now h p) ≡ true) }
    ensures { result ≡ since controlled (counted_from r.now h p p 2) (Ok tt) }
{
    if controlled {
        return check_counts(r, h, p);
    }
    Ok(())
}
