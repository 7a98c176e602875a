// Parcels: whole length, kind, body.
ghost use Rattle.std.specs.Prelude.{◌≡◌};
ghost use Rattle.parcels.specs.Parcel.{fronts as fronts_of, is_parcel, tells_holding, carries_file, fronts_file};

use fields::{le16, le32};

// Whether a parcel of this kind, of at least so many bytes, stands at the front of b.
fn fronts(b: &[u8], kind: u16, least: usize) -> bool
    ensures { result ≡ fronts_of kind least b.now }
{
    if b.len() < 6 {
        return false;
    }
    let n = le32(b, 0) as usize;
    if n < least {
        return false;
    }
    if b.len() < n {
        return false;
    }
    le16(b, 4) == kind
}

// Whether b is one, with nothing behind it.
fn is_parcel(b: &[u8], kind: u16, least: usize) -> bool
    ensures { result ≡ is_parcel kind least b.now }
{
    if !fronts(b, kind, least) {
        return false;
    }
    le32(b, 0) as usize == b.len()
}

// Whether b tells a holding.
pub fn tells_holding(b: &[u8]) -> bool
    ensures { result ≡ tells_holding b.now }
{
    is_parcel(b, 1, 10)
}

// Whether b carries an update file.
pub fn carries_file(b: &[u8]) -> bool
    ensures { result ≡ carries_file b.now }
{
    is_parcel(b, 2, 6)
}

// Whether a parcel that carries one stands at the front of b.
pub fn fronts_file(b: &[u8]) -> bool
    ensures { result ≡ fronts_file b.now }
{
    fronts(b, 2, 6)
}
