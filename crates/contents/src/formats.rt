// The format of each field, by its tag.
ghost use Rattle.std.specs.Prelude.{◌≡◌, not};
ghost use Rattle.base.specs.Lists.{empty};
ghost use Rattle.base.specs.Verdict.{verdict_of};
ghost use Rattle.fields.specs.Table.{tuple_of};
ghost use Rattle.rules.specs.Content.{insert_only, ident_format, inas_format, format_of, stands};

use base::Fault;
use fields::row::rows_of;
use fields::{Format, tally_of};
use rules::{Kind, Mode, tags};

// In a dataset RUIN too has to be insert.
pub fn insert_only(mode: Mode) -> bool
    ensures { result ≡ insert_only mode }
{
    matches!(mode, Mode::InDataset)
}

// The format of an identifier; new: every instruction is insert.
pub fn ident_format(new: bool, k: Kind) -> Format
    ensures { result ≡ ident_format new k }
{
    match k {
        Kind::Info => { if new { Format::IridNew } else { Format::Irid } }
        Kind::Point => { if new { Format::PridNew } else { Format::Prid } }
        Kind::Multi => { if new { Format::MridNew } else { Format::Mrid } }
        Kind::Feature => { if new { Format::FridNew } else { Format::Frid } }
    }
}

// The format of an INAS: IUIN, its tenth byte, says whether it is inserted or, in a modify, deleted.
fn inas_format(new: bool, b: &[u8]) -> Format
    ensures { result ≡ inas_format new b.now }
{
    if !new && 9 < b.len() && b[9] == 2 {
        Format::InasGone
    } else {
        Format::InasNew
    }
}

// The format of any field but the identifier, by its tag: ATTR, INAS, SPAS, FOID, COCC, C2IT, else C2IL.
pub fn format_of(new: bool, tag: u32, b: &[u8]) -> Format
    ensures { result ≡ format_of new tag b.now }
{
    match tag {
        tags::ATTR => { if new { Format::AttrNew } else { Format::Attr } }
        tags::INAS => inas_format(new, b),
        tags::SPAS => { if new { Format::SpasNew } else { Format::Spas } }
        tags::FOID => Format::Foid,
        tags::COCC => Format::Cocc,
        tags::C2IT => Format::C2it,
        _ => Format::C2il,
    }
}

// Whether a format has tuples.
fn has_tuples(f: Format) -> bool
    ensures { result ≡ not (empty (tuple_of f)) }
{
    let s = rows_of(f);
    s.1 < s.2
}

// Whether field i, whose body is b, has this format; else 5, at the tuple that does not stand if the format has tuples.
pub fn has_format(i: usize, f: Format, b: &[u8]) -> Result<(), Fault>
    ensures { result ≡ verdict_of (stands i f b.now) }
{
    match tally_of(f, b) {
        Ok(_) => Ok(()),
        Err(j) => Err(Fault {
            number: 5,
            field: i,
            tuple: if has_tuples(f) { j } else { 0 },
        }),
    }
}
