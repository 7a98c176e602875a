// The tables of all formats as one, and the subfields of some of its rows one after the other.
// A further field: its rows, as specs/Table.antt has them, are put at the end of the last function of rows here and of `table` in
// specs/Rows.antt, its format has an arm in `rows_of`, a clause in `shape_of` and a line in `its_rows` (proofs/RowLaws.antt), and tools/rows.py
// writes the proofs of these functions anew. Rows that most bytes of a chart stand in may have a function in `often`, which `rows_end` asks first.
// Rows are arms of a `match`, which the compiler keeps as constant tables; an array of them would be made anew at each call.
ghost use Rattle.std.specs.Prelude.{◌≡◌, ◌≤◌, ◌<◌, length, get_or};
ghost use Rattle.std.proofs.Math.Seq.{slice};
ghost use Rattle.fields.specs.Rows.{table, rows, shape_of};
ghost use Rattle.fields.specs.Places.{subfields_end};

use crate::often::{association_end, attribute_end, feature_end, point_end, spatial_end};
use crate::subfield::subfield_end;
use crate::{Format, Sub};

// The rows of a format: those of its head from the first number to the second, those of its tuple from the second to the third.
#[derive(Clone, Copy)]
pub struct Shape(pub usize, pub usize, pub usize);

// RCID
const RCID: Sub = Sub::B14(1, 4294967294);

// RVER, EDTN, ATIX, COIX, NCOR, an update's UPDN
const COUNT: Sub = Sub::B12(1, 65534);

// NITC, NFTC, NATC, NIAC, NARC, UPDN
const CODE: Sub = Sub::B12(0, 65534);

// RUIN, ATIN, COUI
const CHANGE: Sub = Sub::B11(1, 3);

// SAUI
const LINK: Sub = Sub::B11(1, 2);

// An instruction that has to be insert.
const INSERT: Sub = Sub::B11(1, 1);

// An instruction that has to be delete.
const DELETE: Sub = Sub::B11(2, 2);

// The rows of DSID.
fn general_row(k: usize) -> Sub
    requires { k < 22 }
    ensures { result ≡ get_or table k Sub.Text }
{
    match k {
        // DSID
        0 => Sub::B11(10, 10),
        1 => RCID,
        2 => Sub::Text,
        3 => Sub::Text,
        4 => Sub::Text,
        5 => Sub::Text,
        6 => Sub::Text,
        7 => Sub::Text,
        8 => COUNT,
        9 => CODE,
        10 => Sub::Fixed(8),
        // DSID of an update
        11 => Sub::B11(10, 10),
        12 => RCID,
        13 => Sub::Text,
        14 => Sub::Text,
        15 => Sub::Text,
        16 => Sub::Text,
        17 => Sub::Text,
        18 => Sub::Text,
        19 => COUNT,
        20 => COUNT,
        21 => Sub::Fixed(8),
        _ => Sub::Text,
    }
}

// The rows of identifiers with a code: information types and features.
fn coded_row(k: usize) -> Sub
    requires { (22 ≤ k) × (k < 42) }
    ensures { result ≡ get_or table k Sub.Text }
{
    match k {
        // IRID
        22 => Sub::B11(150, 150),
        23 => RCID,
        24 => CODE,
        25 => COUNT,
        26 => CHANGE,
        // IRID, insert
        27 => Sub::B11(150, 150),
        28 => RCID,
        29 => CODE,
        30 => COUNT,
        31 => INSERT,
        // FRID
        32 => Sub::B11(100, 100),
        33 => RCID,
        34 => CODE,
        35 => COUNT,
        36 => CHANGE,
        // FRID, insert
        37 => Sub::B11(100, 100),
        38 => RCID,
        39 => CODE,
        40 => COUNT,
        41 => INSERT,
        _ => Sub::Text,
    }
}

// The rows of identifiers without one: points and multi points.
fn spatial_row(k: usize) -> Sub
    requires { (42 ≤ k) × (k < 58) }
    ensures { result ≡ get_or table k Sub.Text }
{
    match k {
        // PRID
        42 => Sub::B11(110, 110),
        43 => RCID,
        44 => COUNT,
        45 => CHANGE,
        // PRID, insert
        46 => Sub::B11(110, 110),
        47 => RCID,
        48 => COUNT,
        49 => INSERT,
        // MRID
        50 => Sub::B11(115, 115),
        51 => RCID,
        52 => COUNT,
        53 => CHANGE,
        // MRID, insert
        54 => Sub::B11(115, 115),
        55 => RCID,
        56 => COUNT,
        57 => INSERT,
        _ => Sub::Text,
    }
}

// The rows of attributes and information associations.
fn attribute_row(k: usize) -> Sub
    requires { (58 ≤ k) × (k < 78) }
    ensures { result ≡ get_or table k Sub.Text }
{
    match k {
        // a tuple of ATTR
        58 => CODE,
        59 => COUNT,
        60 => Sub::Raw(2),
        61 => CHANGE,
        62 => Sub::Text,
        // INAS, insert
        63 => Sub::B11(150, 150),
        64 => Sub::Raw(4),
        65 => CODE,
        66 => CODE,
        67 => INSERT,
        // a tuple of ATTR or INAS, insert
        68 => CODE,
        69 => COUNT,
        70 => Sub::Raw(2),
        71 => INSERT,
        72 => Sub::Text,
        // INAS, delete
        73 => Sub::B11(150, 150),
        74 => Sub::Raw(4),
        75 => CODE,
        76 => CODE,
        77 => DELETE,
        _ => Sub::Text,
    }
}

// The rows of FOID, spatial associations and coordinates.
fn place_row(k: usize) -> Sub
    requires { (78 ≤ k) × (k < 98) }
    ensures { result ≡ get_or table k Sub.Text }
{
    match k {
        // FOID
        78 => Sub::Raw(2),
        79 => Sub::Raw(4),
        80 => Sub::Raw(2),
        // a tuple of SPAS
        81 => Sub::Among(110, 115, 115, 115),
        82 => Sub::Raw(4),
        83 => Sub::Among(1, 2, 255, 255),
        84 => Sub::Raw(4),
        85 => Sub::Raw(4),
        86 => LINK,
        // a tuple of SPAS, insert
        87 => Sub::Among(110, 115, 115, 115),
        88 => Sub::Raw(4),
        89 => Sub::Among(1, 2, 255, 255),
        90 => Sub::Raw(4),
        91 => Sub::Raw(4),
        92 => INSERT,
        // COCC
        93 => CHANGE,
        94 => COUNT,
        95 => COUNT,
        // C2IT, a tuple of C2IL
        96 => Sub::Raw(4),
        97 => Sub::Raw(4),
        _ => Sub::Text,
    }
}

// Any row: those of which most fields are made by the fewest tests.
pub fn row(k: usize) -> Sub
    requires { k < rows }
    ensures { result ≡ get_or table k Sub.Text }
{
    if k < 58 {
        if k < 22 {
            return general_row(k);
        }
        if k < 42 {
            return coded_row(k);
        }
        return spatial_row(k);
    }
    if k < 78 {
        return attribute_row(k);
    }
    place_row(k)
}

// The rows of a format.
pub fn rows_of(k: Format) -> Shape
    ensures { result ≡ shape_of k }
{
    match k {
        Format::Dsid => Shape(0, 11, 11),
        Format::DsidUpdate => Shape(11, 22, 22),
        Format::Irid => Shape(22, 27, 27),
        Format::IridNew => Shape(27, 32, 32),
        Format::Frid => Shape(32, 37, 37),
        Format::FridNew => Shape(37, 42, 42),
        Format::Prid => Shape(42, 46, 46),
        Format::PridNew => Shape(46, 50, 50),
        Format::Mrid => Shape(50, 54, 54),
        Format::MridNew => Shape(54, 58, 58),
        Format::Attr => Shape(58, 58, 63),
        Format::InasNew => Shape(63, 68, 73),
        Format::AttrNew => Shape(68, 68, 73),
        Format::InasGone => Shape(73, 78, 78),
        Format::Foid => Shape(78, 81, 81),
        Format::Spas => Shape(81, 81, 87),
        Format::SpasNew => Shape(87, 87, 93),
        Format::Cocc => Shape(93, 96, 96),
        Format::C2it => Shape(96, 98, 98),
        Format::C2il => Shape(96, 96, 98),
    }
}

// Where the subfields of the rows from..to end, read from `at` on: row by row. None where one does not stand, which is no refusal by itself: that is
// the field's, by its tally.
fn table_end(from: usize, to: usize, b: &[u8], at: usize) -> Option<usize>
    requires { (from ≤ to) × (to ≤ rows) × (at ≤ length b.now) }
    ensures { result ≡ subfields_end (slice from to table) b.now at }
{
    let mut p = at;
    for j in from..to {
        p = subfield_end(row(j), b, p)?;
    }
    Some(p)
}

// The same; those of which most bytes are made are read by name, attributes first. Tests one after the other, since a `match` on both numbers reads
// attributes by a third more slowly.
pub fn rows_end(from: usize, to: usize, b: &[u8], at: usize) -> Option<usize>
    requires { (from ≤ to) × (to ≤ rows) × (at ≤ length b.now) }
    ensures { result ≡ subfields_end (slice from to table) b.now at }
{
    if from == 68 && to == 73 {
        return attribute_end(b, at);
    }
    if from == 87 && to == 93 {
        return spatial_end(b, at);
    }
    if from == 37 && to == 42 {
        return feature_end(b, at);
    }
    if from == 46 && to == 50 {
        return point_end(b, at);
    }
    if from == 63 && to == 68 {
        return association_end(b, at);
    }
    table_end(from, to, b, at)
}
