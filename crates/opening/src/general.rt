// The general record on its own: numbers 4 and 5.
ghost use Rattle.std.specs.Prelude.{◌≡◌, ◌≤◌, false};
ghost use Rattle.base.specs.Verdict.{verdict_of, first_fault};
ghost use Rattle.skeleton.specs.Place.{fields_at};
ghost use Rattle.skeleton.specs.RightFrom.{RightFrom};
ghost use Rattle.skeleton.specs.Shape.{Bounded};
ghost use Rattle.rules.specs.Kind.{general_rows};
ghost use Rattle.rules.specs.Grammar.{in_order};
ghost use Rattle.rules.specs.General.{general_record, general_format};
ghost use Rattle.records.specs.Order.{faulty_field};

use base::Fault;
use contents::formats::has_format;
use fields::Format;
use records::order::{Instructions, order};
use rules::{Mode, tags};
use skeleton::directory::Shape;
use skeleton::place::place_at;

// The format of DSID: in an update UPDN is at least 1.
fn general_format(mode: Mode) -> Format
    ensures { result ≡ general_format mode }
{
    match mode {
        Mode::InDataset => Format::Dsid,
        Mode::InUpdate => Format::DsidUpdate,
    }
}

// That all fields from the second entry on stand in the order DSSI, ATCS, ITCS, FTCS, IACS, FACS, ARCS; else the number of the first that does not.
fn unread_order(r: &[u8], h: Shape, p: usize, mode: Mode) -> Result<(), usize>
    requires { Bounded h × (2 ≤ p) × RightFrom r.now h p }
    ensures { result ≡ first_fault (faulty_field (in_order (λ t. false) general_rows 2 (fields_at r.now h p))) }
{
    let s = Instructions {
        general: true,
        mode,
        ruin: 0,
        coui: 0,
        controlled: false,
    };
    order(
        r,
        h,
        p,
        &[
            tags::DSSI,
            tags::ATCS,
            tags::ITCS,
            tags::FTCS,
            tags::IACS,
            tags::FACS,
            tags::ARCS,
        ],
        s,
    )
}

// The general record, whose directory was found right: DSID, then the unread fields in their order; DSID has its format.
pub fn check_general(r: &[u8], h: Shape, mode: Mode) -> Result<(), Fault>
    requires { Bounded h × RightFrom r.now h 24 }
    ensures { result ≡ verdict_of (general_record mode (fields_at r.now h 24)) }
{
    let Some(field) = place_at(r, h, 24) else {
        return Err(Fault {
            number: 4,
            field: 1,
            tuple: 0,
        });
    };
    if field.tag != tags::DSID {
        return Err(Fault {
            number: 4,
            field: 1,
            tuple: 0,
        });
    }
    if let Err(i) = unread_order(r, h, field.next, mode) {
        return Err(Fault {
            number: 4,
            field: i,
            tuple: 0,
        });
    }
    has_format(1, general_format(mode), &r[field.start..field.end])
}
