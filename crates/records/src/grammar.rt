// Number 4: a record's tags, their order and their presence.
ghost use Rattle.std.specs.Prelude.{◌≡◌, ◌≤◌, length};
ghost use Rattle.skeleton.specs.Place.{between, fields_at};
ghost use Rattle.skeleton.specs.RightFrom.{RightFrom};
ghost use Rattle.skeleton.specs.Shape.{Bounded};
ghost use Rattle.rules.specs.Kind.{kind_of, rank, rows_of};
ghost use Rattle.rules.specs.Grammar.{in_order, complete, ruin_byte, as_stored, fields_stand, number4};
ghost use Rattle.base.specs.Check.{bind, ok};
ghost use Rattle.base.specs.Verdict.{result_of, first_fault};
ghost use Rattle.records.specs.Order.{shut_out, faulty_field, instructions_of};
ghost use Rattle.records.specs.Answers.{found_kind, ruin_place};

use crate::order::{Instructions, order};
use crate::tagged::{coui_byte, has_field};
use base::Fault;
use rules::{Kind, Mode, tags};
use skeleton::directory::Shape;
use skeleton::place::place_at;

// The kind of a record by its first tag: IRID, PRID, MRID, FRID; none where no record begins with the tag.
pub fn kind_of(tag: u32) -> Option<Kind>
    ensures { result ≡ found_kind (kind_of tag) }
{
    match tag {
        tags::IRID => Some(Kind::Info),
        tags::PRID => Some(Kind::Point),
        tags::MRID => Some(Kind::Multi),
        tags::FRID => Some(Kind::Feature),
        _ => None,
    }
}

// The place of a kind in a dataset.
pub fn rank_of(k: Kind) -> usize
    ensures { result ≡ rank k }
{
    match k {
        Kind::Info => 1,
        Kind::Point => 2,
        Kind::Multi => 3,
        Kind::Feature => 4,
    }
}

// Where RUIN stands in an identifier: behind the code, if there is one.
pub fn ruin_place(k: Kind) -> usize
    ensures { result ≡ ruin_place k }
{
    match k {
        Kind::Info => 9,
        Kind::Point => 7,
        Kind::Multi => 7,
        Kind::Feature => 9,
    }
}

// The byte in RUIN's place in the identifier r[start..end]; 0 where it ends before it, as the rules' definition says.
pub fn ruin_byte(r: &[u8], start: usize, end: usize, k: Kind) -> u8
    requires { (start ≤ end) × (end ≤ length r.now) }
    ensures { result ≡ ruin_byte k (between r.now start end) }
{
    let at = ruin_place(k);
    if at < end - start { r[start + at] } else { 0 }
}

// Whether a record is as in a dataset: it stands in one, or it is inserted.
pub fn as_stored(mode: Mode, ruin: u8) -> bool
    ensures { result ≡ as_stored mode ruin }
{
    match mode {
        Mode::InDataset => true,
        Mode::InUpdate => ruin == 1,
    }
}

// Whether every field is there that a record of a dataset needs: a point's C2IT, a feature's FOID.
fn is_complete(r: &[u8], h: Shape, p: usize, k: Kind) -> bool
    requires { Bounded h × RightFrom r.now h p }
    ensures { result ≡ complete (rows_of k) (fields_at r.now h p) }
{
    match k {
        Kind::Info => true,
        Kind::Point => has_field(r, h, tags::C2IT, p),
        Kind::Multi => true,
        Kind::Feature => has_field(r, h, tags::FOID, p),
    }
}

// That all fields from the second entry on stand in the order of the kind's rows and none is shut out; else the number of the first that does not.
fn kind_order(r: &[u8], h: Shape, p: usize, k: Kind, s: Instructions) -> Result<(), usize>
    requires { Bounded h × (2 ≤ p) × RightFrom r.now h p }
    ensures { result ≡ first_fault (faulty_field (in_order (shut_out s) (rows_of k) 2 (fields_at r.now h p))) }
{
    match k {
        Kind::Info => order(r, h, p, &[tags::ATTR, tags::INAS], s),
        Kind::Point => order(r, h, p, &[tags::INAS, tags::C2IT], s),
        Kind::Multi => order(r, h, p, &[tags::INAS, tags::COCC, tags::C2IL], s),
        Kind::Feature => order(
            r,
            h,
            p,
            &[tags::FOID, tags::ATTR, tags::INAS, tags::SPAS],
            s,
        ),
    }
}

// The instructions of a record with this RUIN, its fields from the entry at p on. In a dataset they take no COCC, whatever they are:
// none is looked for.
fn instructions(r: &[u8], h: Shape, p: usize, mode: Mode, ruin: u8) -> Instructions
    requires { Bounded h × RightFrom r.now h p }
    ensures { result ≡ instructions_of mode ruin (fields_at r.now h p) }
{
    match mode {
        Mode::InDataset => Instructions {
            general: false,
            mode,
            ruin,
            coui: 0,
            controlled: false,
        },
        Mode::InUpdate => Instructions {
            general: false,
            mode,
            ruin,
            coui: coui_byte(r, h, p),
            controlled: has_field(r, h, tags::COCC, p),
        },
    }
}

// The kind k of a record, where the fields after its identifier r[start..end], whose entries stand from p on, are right; else 4.
fn fields_stand(
    r: &[u8],
    h: Shape,
    start: usize,
    end: usize,
    p: usize,
    mode: Mode,
    k: Kind,
) -> Result<Kind, Fault>
    requires { Bounded h × (2 ≤ p) × RightFrom r.now h p × (start ≤ end) × (end ≤ length r.now) }
    ensures { result ≡ result_of (bind (fields_stand mode k (between r.now start end) (fields_at r.now h p)) (λ _. ok k)) }
{
    let ruin = ruin_byte(r, start, end, k);
    let s = instructions(r, h, p, mode, ruin);
    if let Err(field) = kind_order(r, h, p, k, s) {
        return Err(Fault {
            number: 4,
            field,
            tuple: 0,
        });
    }
    if as_stored(mode, ruin) && !is_complete(r, h, p, k) {
        return Err(Fault {
            number: 4,
            field: 0,
            tuple: 0,
        });
    }
    Ok(k)
}

// A record's kind, where its tags are right, else 4; its directory was found right, and least is the rank of the last kind before it in the file.
pub fn check_tags(r: &[u8], h: Shape, mode: Mode, least: usize) -> Result<Kind, Fault>
    requires { Bounded h × RightFrom r.now h 24 }
    ensures { result ≡ result_of (number4 mode least (fields_at r.now h 24)) }
{
    let refused = Fault {
        number: 4,
        field: 1,
        tuple: 0,
    };
    let Some(ident) = place_at(r, h, 24) else {
        return Err(refused);
    };
    let Some(k) = kind_of(ident.tag) else {
        return Err(refused);
    };
    if rank_of(k) < least {
        return Err(refused);
    }
    fields_stand(r, h, ident.start, ident.end, ident.next, mode, k)
}
