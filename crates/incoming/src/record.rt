// One record of an update on its own: numbers 4 to 6, and 7 within it where it is inserted.
ghost use Rattle.std.specs.Prelude.{◌≡◌, eqb};
ghost use Rattle.base.specs.Check.{passed};
ghost use Rattle.base.specs.Verdict.{verdict_of};
ghost use Rattle.skeleton.specs.Place.{fields_at};
ghost use Rattle.skeleton.specs.RightFrom.{RightFrom};
ghost use Rattle.skeleton.specs.Shape.{Bounded};
ghost use Rattle.rules.specs.ByTag.{front};
ghost use Rattle.rules.specs.Grammar.{ruin_byte};
ghost use Rattle.rules.specs.Record.{update_record};

use base::Fault;
use contents::associations::check_keys;
use contents::identifier::is_stored;
use dataset::record::four_to_six;
use rules::{Kind, Mode};
use skeleton::directory::Shape;
use skeleton::place::place_at;

// Whether the record, of kind k, is inserted.
fn is_inserted(r: &[u8], h: Shape, k: Kind) -> bool
    requires { Bounded h }
    ensures { result ≡ eqb (ruin_byte k (front (fields_at r.now h 24))) 1 }
{
    let Some(field) = place_at(r, h, 24) else {
        return false;
    };
    is_stored(r, field.start, field.end, Mode::InUpdate, k)
}

// The record r, whose directory was found right.
pub fn check_record(r: &[u8], h: Shape) -> Result<(), Fault>
    requires { Bounded h × RightFrom r.now h 24 }
    ensures { result ≡ verdict_of (passed (update_record (fields_at r.now h 24))) }
{
    let k = four_to_six(r, h, Mode::InUpdate, 0)?;
    if is_inserted(r, h, k) {
        return check_keys(r, h, Mode::InUpdate, k);
    }
    Ok(())
}
