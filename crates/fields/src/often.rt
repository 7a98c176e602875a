// The subfields that most bytes of a chart stand in, one after the other by name, where `table_end` looks up each row. None where one does not stand,
// which is no refusal by itself: that is the field's, by its tally.
ghost use Rattle.std.specs.Prelude.{◌≡◌, ◌≤◌, length};
ghost use Rattle.fields.specs.Table.{head_of, tuple_of};
ghost use Rattle.fields.specs.Places.{subfields_end};

use crate::Format;
use crate::subfield::{any_bytes, chosen8, ended_text, ranged8, ranged16, ranged32};

// Where a tuple of ATTR or INAS, insert, ends.
pub fn attribute_end(b: &[u8], at: usize) -> Option<usize>
    requires { at ≤ length b.now }
    ensures { result ≡ subfields_end (tuple_of Format.AttrNew) b.now at }
{
    // NATC, ATIX, PAIX, ATIN and ATVL
    let p = ranged16(0, 65534, b, at)?;
    let q = ranged16(1, 65534, b, p)?;
    let s = any_bytes(2, b, q)?;
    let t = ranged8(1, 1, b, s)?;
    ended_text(b, t)
}

// Where a tuple of SPAS, insert, ends.
pub fn spatial_end(b: &[u8], at: usize) -> Option<usize>
    requires { at ≤ length b.now }
    ensures { result ≡ subfields_end (tuple_of Format.SpasNew) b.now at }
{
    // RRNM, RRID, ORNT, SMIN, SMAX and SAUI
    let p = chosen8(110, 115, 115, 115, b, at)?;
    let q = any_bytes(4, b, p)?;
    let s = chosen8(1, 2, 255, 255, b, q)?;
    let t = any_bytes(4, b, s)?;
    let u = any_bytes(4, b, t)?;
    ranged8(1, 1, b, u)
}

// Where the identifier of a feature, insert, ends.
pub fn feature_end(b: &[u8], at: usize) -> Option<usize>
    requires { at ≤ length b.now }
    ensures { result ≡ subfields_end (head_of Format.FridNew) b.now at }
{
    // RCNM, RCID, NFTC, RVER and RUIN
    let p = ranged8(100, 100, b, at)?;
    let q = ranged32(1, 4294967294, b, p)?;
    let s = ranged16(0, 65534, b, q)?;
    let t = ranged16(1, 65534, b, s)?;
    ranged8(1, 1, b, t)
}

// Where the identifier of a point, insert, ends.
pub fn point_end(b: &[u8], at: usize) -> Option<usize>
    requires { at ≤ length b.now }
    ensures { result ≡ subfields_end (head_of Format.PridNew) b.now at }
{
    // RCNM, RCID, RVER and RUIN
    let p = ranged8(110, 110, b, at)?;
    let q = ranged32(1, 4294967294, b, p)?;
    let s = ranged16(1, 65534, b, q)?;
    ranged8(1, 1, b, s)
}

// Where the head of an INAS, insert, ends.
pub fn association_end(b: &[u8], at: usize) -> Option<usize>
    requires { at ≤ length b.now }
    ensures { result ≡ subfields_end (head_of Format.InasNew) b.now at }
{
    // RRNM, RRID, NIAC, NARC and IUIN
    let p = ranged8(150, 150, b, at)?;
    let q = any_bytes(4, b, p)?;
    let s = ranged16(0, 65534, b, q)?;
    let t = ranged16(0, 65534, b, s)?;
    ranged8(1, 1, b, t)
}
