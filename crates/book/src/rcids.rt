// A book of RCIDs: of four bytes each, so that it has many. The flags beside it begin with a sieve, which says at once of most keys that the book has them
// not; behind it five flags for each entry, one for each rank of a kind, say which keys were met. What is found is certain; that the book is in order, and
// that its RCIDs are in the sieve, only makes it likely to be found.
ghost use Rattle.std.specs.Prelude.{◌≡◌, ◌≤◌, ◌<◌, length};
ghost use Rattle.keys.specs.Bits.{flag_of, raised};
ghost use Rattle.keys.specs.Map.{rcid_in};
ghost use Rattle.book.specs.Book.{bit_at, halves};
ghost use Rattle.book.specs.Rcids.{leaf_of, base_of, mesh_of, spot_of, joined};

use keys::bits::{flag, raise};

// The RCID of a key.
pub fn rcid_of(key: u64) -> u32
    ensures { result ≡ rcid_in key }
{
    (key % 4294967296) as u32
}

// 1 where there is an entry at j that is not above the RCID, else 0.
fn bit(b: &[u32], rcid: u32, j: usize) -> usize
    ensures { (result ≡ bit_at b.now rcid j) × (result ≤ 1) }
{
    usize::from(j < b.len() && b[j] <= rcid)
}

// The first six bits of the number of the last entry that is not above the RCID, where the entries ascend. It comes bit by bit, so that nothing is to be
// guessed when it runs.
fn bough(b: &[u32], rcid: u32) -> usize
    ensures { (halves 7 b.now rcid 64 result ≡ halves 12 b.now rcid 2048 (bit_at b.now rcid 4096)) × (result < 64) }
{
    let a = bit(b, rcid, 4096);
    let c = 2 * a + bit(b, rcid, 4096 * a + 2048);
    let d = 2 * c + bit(b, rcid, 2048 * c + 1024);
    let e = 2 * d + bit(b, rcid, 1024 * d + 512);
    let g = 2 * e + bit(b, rcid, 512 * e + 256);
    2 * g + bit(b, rcid, 256 * g + 128)
}

// Where an RCID is looked for: that entry.
fn leaf(b: &[u32], rcid: u32) -> usize
    requires { 0 < length b.now }
    ensures { (result ≡ leaf_of b.now rcid) × (result < length b.now) × (result < 8192) }
{
    let a = bough(b, rcid);
    let c = 2 * a + bit(b, rcid, 128 * a + 64);
    let d = 2 * c + bit(b, rcid, 64 * c + 32);
    let e = 2 * d + bit(b, rcid, 32 * d + 16);
    let g = 2 * e + bit(b, rcid, 16 * e + 8);
    let h = 2 * g + bit(b, rcid, 8 * g + 4);
    let i = 2 * h + bit(b, rcid, 4 * h + 2);
    let l = 2 * i + bit(b, rcid, 2 * i + 1);
    if l < b.len() {
        return l;
    }
    0
}

// How many of the flags in n bytes are the sieve: where there is little room, little of it.
fn base(n: usize) -> usize
    ensures { (result ≡ base_of n) × (result ≤ 221184) × (0 < result) }
{
    if n < 32768 {
        return 32768;
    }
    221184
}

// The flag of an RCID in a sieve in n bytes: digits from the middle of a product, so that RCIDs that are alike have different ones.
fn mesh(n: usize, rcid: u32) -> usize
    ensures { result ≡ mesh_of n rcid }
{
    let x = rcid as u64 * 2654435769;
    if n < 32768 {
        return (x / 131072 % 32768) as usize;
    }
    (x / 256 % 221184) as usize
}

// An RCID of the book goes into the sieve.
pub fn sift(v: &mut [u8], rcid: u32)
    ensures { v.new ≡ raised v.old (mesh_of (length v.old) rcid) }
{
    let j = mesh(v.len(), rcid);
    raise(v, j);
}

// Whether the sieve lets an RCID through.
fn sifted(v: &[u8], rcid: u32) -> bool
    ensures { result ≡ flag_of v.now (mesh_of (length v.now) rcid) }
{
    let j = mesh(v.len(), rcid);
    j / 8 < v.len() && flag(v, j)
}

// The flag of a key that the book has; 0 for any other.
pub fn spot(b: &[u32], v: &[u8], key: u64) -> usize
    requires { 0 < length b.now }
    ensures { result ≡ spot_of b.now v.now key }
{
    let rcid = rcid_of(key);
    if !sifted(v, rcid) || 21474836479 < key {
        return 0;
    }
    let j = leaf(b, rcid);
    if b[j] == rcid {
        return base(v.len()) + (5 * j + (key / 4294967296) as usize);
    }
    0
}

// Raises the flag of a key that the book has.
pub fn enter(b: &[u32], v: &mut [u8], key: u64)
    requires { 0 < length b.now }
    ensures { v.new ≡ joined b.now v.old key }
{
    let j = spot(b, v, key);
    if 0 < j {
        raise(v, j);
    }
}
