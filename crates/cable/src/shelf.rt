// A master: what its shelf answers a holding with.
ghost use Rattle.std.specs.Prelude.{◌≡◌, ◌≤◌, length};
ghost use Rattle.parcels.specs.Shelf.{reply_from, reply as reply_of, reply_answer};

use crate::parcel::{fronts_file, tells_holding};
use crate::successor::follows;
use fields::le32;
use parcels::Reply;
use rules::Answer;

// The first parcel of the shelf that follows a holding.
fn search(h: &[u8], s: &[u8]) -> Reply
    requires { 10 ≤ length h.now }
    ensures { result ≡ reply_from h.now s.now 0 }
{
    let mut p = 0;
    while p < s.len() {
        let rest = &s[p..];
        if !fronts_file(rest) {
            return Reply::Refused;
        }
        let n = le32(rest, 0) as usize;
        if follows(h, &rest[6..n]) {
            return Reply::Parcel {
                start: p,
                length: n,
            };
        }
        p += n;
    }
    Reply::Silence
}

// What a shelf answers a holding with.
pub fn reply(holding: &[u8], shelf: &[u8]) -> Reply
    ensures { result ≡ reply_of holding.now shelf.now }
{
    if !tells_holding(holding) {
        return Reply::Refused;
    }
    search(holding, shelf)
}

// The same in the numbers of an answer: 27 or done.
pub fn answer_of(r: Reply) -> Answer
    ensures { result ≡ reply_answer r }
{
    let number = match r {
        Reply::Refused => 27,
        Reply::Silence => 0,
        Reply::Parcel {
            start: _,
            length: _,
        } => 0,
    };
    Answer {
        number,
        file: 0,
        rec: 0,
        length: 0,
        count: 0,
    }
}
