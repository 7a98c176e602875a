// The identifier of a record: what it says, at constant places.
ghost use Rattle.std.specs.Prelude.{◌≡◌, true, ◌≤◌, length};
ghost use Rattle.base.specs.Choice.{pick};
ghost use Rattle.skeleton.specs.Place.{between};
ghost use Rattle.rules.specs.Kind.{coded};
ghost use Rattle.rules.specs.Grammar.{ruin_byte, as_stored};
ghost use Rattle.rules.specs.Record.{ident_of};
ghost use Rattle.contents.specs.Fit.{identified};

use fields::{le8, le16, le32};
use records::grammar::{as_stored, ruin_byte, ruin_place};
use rules::{Kind, Mode};

// Whether an identifier of this kind has a code.
fn is_coded(k: Kind) -> bool
    ensures { result ≡ coded k }
{
    matches!(k, Kind::Info | Kind::Feature)
}

// Where RVER stands: behind the code, if there is one.
fn rver_place(k: Kind) -> usize
    ensures { result ≡ pick (coded k) 7 5 }
{
    if is_coded(k) { 7 } else { 5 }
}

// Whether the record is as in a dataset: it stands in one, or its identifier says that it is inserted.
pub fn is_stored(r: &[u8], start: usize, end: usize, mode: Mode, k: Kind) -> bool
    requires { (start ≤ end) × (end ≤ length r.now) }
    ensures { result ≡ as_stored mode (ruin_byte k (between r.now start end)) }
{
    as_stored(mode, ruin_byte(r, start, end, k))
}

// RCID of the identifier r[start..end].
pub fn rcid(r: &[u8], start: usize, end: usize, k: Kind) -> u32
    requires { (start ≤ end) × (end ≤ length r.now) × (identified k (between r.now start end) ≡ true) }
    ensures { result ≡ (ident_of k (between r.now start end)).rcid }
{
    le32(&r[start..end], 1)
}

// Its code, NITC or NFTC; 0 where the kind has none, as the rules' definition says.
pub fn code(r: &[u8], start: usize, end: usize, k: Kind) -> u16
    requires { (start ≤ end) × (end ≤ length r.now) × (identified k (between r.now start end) ≡ true) }
    ensures { result ≡ (ident_of k (between r.now start end)).code }
{
    if is_coded(k) {
        le16(&r[start..end], 5)
    } else {
        0
    }
}

// Its RVER.
pub fn rver(r: &[u8], start: usize, end: usize, k: Kind) -> u16
    requires { (start ≤ end) × (end ≤ length r.now) × (identified k (between r.now start end) ≡ true) }
    ensures { result ≡ (ident_of k (between r.now start end)).rver }
{
    le16(&r[start..end], rver_place(k))
}

// Its RUIN: 1 insert, 2 delete, 3 modify.
pub fn ruin(r: &[u8], start: usize, end: usize, k: Kind) -> u8
    requires { (start ≤ end) × (end ≤ length r.now) × (identified k (between r.now start end) ≡ true) }
    ensures { result ≡ (ident_of k (between r.now start end)).ruin }
{
    le8(&r[start..end], ruin_place(k))
}
