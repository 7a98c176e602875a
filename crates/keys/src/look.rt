// The key of a record, and a quick look at a record that was found right before.
ghost use Rattle.std.specs.Prelude.{◌≡◌, ◌/◌, ◌^◌, ◌≤◌, ◌<◌, length};
ghost use Rattle.keys.specs.Key.{rank_of, key_at, KeyFits, kind_ranked};
ghost use Rattle.keys.specs.Listed.{seen_from};
ghost use Rattle.keys.specs.Look.{look_at, Known};

use fields::le32;
use rules::Kind;
use skeleton::file::stated_at;

// The rank of a kind by its RCNM; 0 for no kind.
fn rank(rcnm: u8) -> u64
    ensures { (result ≡ rank_of rcnm) × (result ≤ 4) }
{
    match rcnm {
        150 => 1,
        110 => 2,
        115 => 3,
        100 => 4,
        _ => 0,
    }
}

// The key whose five bytes stand at q: the kind's rank times 2^32, and RCID; 0 where the bytes end before them, as the definition says.
pub fn key_at(f: &[u8], q: usize) -> u64
    requires { q < 2 ^ 63 }
    ensures { (result ≡ key_at f.now q) × (KeyFits f.now q) }
{
    if f.len() < q + 5 {
        return 0;
    }
    let rcid = le32(f, q + 1) as u64;
    rank(f[q]) * 4294967296 + rcid
}

// What a quick look at a record finds: its length and its key.
#[derive(Clone, Copy)]
pub struct Look {
    pub len: usize,
    pub key: u64,
}

// The kind of a key.
pub fn kind_of(key: u64) -> Kind
    ensures { result ≡ kind_ranked (key / 4294967296) }
{
    match key / 4294967296 {
        1 => Kind::Info,
        2 => Kind::Point,
        3 => Kind::Multi,
        _ => Kind::Feature,
    }
}

// A quick look at the record that begins at p; none where its leader says of no record.
pub fn look_at(f: &[u8], p: usize) -> Option<Look>
    requires { (length f.now ≤ 16777216) × (p ≤ length f.now) }
    ensures { result ≡ look_at f.now p }
{
    let head = stated_at(f, p).ok()?;
    Some(Look {
        len: head.len,
        key: key_at(f, p + head.shape.base),
    })
}

// Whether the key is among those of the first m records from start on.
pub fn seen(f: &[u8], start: usize, m: usize, key: u64) -> bool
    requires { (length f.now ≤ 16777216) × (start ≤ length f.now) × (Known f.now start m) }
    ensures { result ≡ seen_from f.now start m key }
{
    let mut p = start;
    for _ in 0..m {
        let Some(look) = look_at(f, p) else {
            return false;
        };
        if look.key == key {
            return true;
        }
        p += look.len;
    }
    false
}
