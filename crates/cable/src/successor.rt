// Whether a file follows a holding: the update that comes next after what a display holds.
ghost use Rattle.std.specs.Prelude.{◌≡◌, ◌≤◌, length};
ghost use Rattle.following.specs.Naming.{Identified};
ghost use Rattle.parcels.specs.Holding.{follows as follows_of};
ghost use Rattle.cable.specs.Naming.{dsid_follows};
ghost use Rattle.cable.specs.Glance.{ends_next, may_follow};

use crate::front::dsid_in;
use crate::glance::glanced;
use fields::{le16, text_end};
use following::naming::{number_in, place_in, same_bytes};
use rules::Mode;

// Whether the DSID b of a file follows the holding h.
fn dsid_follows(h: &[u8], b: &[u8]) -> bool
    requires { (10 ≤ length h.now) × Identified b.now }
    ensures { result ≡ dsid_follows h.now b.now }
{
    let p = place_in(b, 7);
    let e = text_end(b, p);
    if !same_bytes(&b[p..e], &h[10..]) {
        return false;
    }
    if number_in(b, 8) != le16(h, 6) {
        return false;
    }
    let old = le16(h, 8) as usize;
    let new = number_in(b, 9) as usize;
    new == old + 1
}

// Whether what may be a DSID ends with the holding's name, an edition, the update number after the holding's, and a date.
fn ends_next(h: &[u8], b: &[u8]) -> bool
    requires { 10 ≤ length h.now }
    ensures { result ≡ ends_next h.now b.now }
{
    if b.len() < 13 {
        return false;
    }
    let end = b.len() - 13;
    let old = le16(h, 8) as usize;
    let new = le16(b, end + 3) as usize;
    if new != old + 1 {
        return false;
    }
    let long = h.len() - 10;
    if end < long {
        return false;
    }
    same_bytes(&b[end - long..end], &h[10..])
}

// Whether the file f may follow the holding h, at a glance. Most files of a shelf do not, and are read no further.
fn may_follow(h: &[u8], f: &[u8]) -> bool
    requires { 10 ≤ length h.now }
    ensures { result ≡ may_follow h.now f.now }
{
    match glanced(f) {
        Some((i, j)) => ends_next(h, &f[i..j]),
        None => false,
    }
}

// Whether the file f follows the holding h.
pub fn follows(h: &[u8], f: &[u8]) -> bool
    requires { 10 ≤ length h.now }
    ensures { result ≡ follows_of h.now f.now }
{
    if !may_follow(h, f) {
        return false;
    }
    match dsid_in(f, Mode::InUpdate) {
        Ok((i, j)) => dsid_follows(h, &f[i..j]),
        Err(_) => false,
    }
}
