// What update records do with the record whose key they name.
ghost use Rattle.std.specs.Prelude.{◌≡◌, not, eqb};
ghost use Rattle.base.specs.Choice.{pick, both, either};
ghost use Rattle.skeleton.specs.Place.{fields_at};
ghost use Rattle.skeleton.specs.Shape.{Bounded};
ghost use Rattle.keys.specs.Look.{Sound};
ghost use Rattle.keys.specs.Places.{Leads};
ghost use Rattle.sorting.specs.Places.{Indexed};
ghost use Rattle.composing.specs.Acts.{ruin_with, fate_from, deleted_from};

use keys::look::{key_at, kind_of};
use records::grammar::ruin_byte;
use skeleton::directory::Shape;
use skeleton::file::stated_at;
use skeleton::place::place_at;
use sorting::index::{late, next};

// RUIN of the update record r, which names the key.
pub fn ruin(r: &[u8], h: Shape, key: u64) -> u8
    requires { Bounded h }
    ensures { result ≡ ruin_with key (fields_at r.now h 24) }
{
    match place_at(r, h, 24) {
        Some(ident) => ruin_byte(r, ident.start, ident.end, kind_of(key)),
        None => 0,
    }
}

// Whether a record stands under the key after the update record r, which names `found`; before: whether one stood.
fn leaves(r: &[u8], h: Shape, found: u64, key: u64, before: bool) -> bool
    requires { Bounded h }
    ensures { result ≡ pick (eqb found key) (not (eqb (ruin_with key (fields_at r.now h 24)) 2)) before }
{
    if found == key {
        ruin(r, h, key) != 2
    } else {
        before
    }
}

// Whether the update record r, which names `found`, deletes the key, or one before it did.
fn deletes(r: &[u8], h: Shape, found: u64, key: u64, before: bool) -> bool
    requires { Bounded h }
    ensures { result ≡ either before (both (eqb found key) (eqb (ruin_with key (fields_at r.now h 24)) 2)) }
{
    before || found == key && ruin(r, h, key) == 2
}

// Whether one of the update records from `from` on deletes the key, found by an index of those from us on.
pub fn deleted_from(u: &[u8], us: usize, index: &[u8], from: usize, key: u64) -> bool
    requires { Sound u.now us × Leads u.now us from × Indexed u.now us index.now }
    ensures { result ≡ deleted_from u.now from key }
{
    let mut p = next(u, us, index, from, key);
    let mut gone = false;
    while p < u.len() {
        let Ok(head) = stated_at(u, p) else {
            return gone;
        };
        let found = key_at(u, p + head.shape.base);
        gone = deletes(&u[p..p + head.len], head.shape, found, key, gone);
        if gone {
            return true;
        }
        p = next(u, us, index, p + head.len, key);
    }
    gone
}

// Whether a record stands under the key after the update records from us on, found by an index of them; before: whether one stood. The last that names it
// decides alone.
pub fn fate(u: &[u8], us: usize, index: &[u8], key: u64, before: bool) -> bool
    requires { Sound u.now us × Indexed u.now us index.now }
    ensures { result ≡ fate_from u.now us key before }
{
    let from = late(u, us, index, key);
    let mut p = next(u, us, index, from, key);
    let mut stands = before;
    while p < u.len() {
        let Ok(head) = stated_at(u, p) else {
            return stands;
        };
        let found = key_at(u, p + head.shape.base);
        stands = leaves(&u[p..p + head.len], head.shape, found, key, stands);
        p = next(u, us, index, p + head.len, key);
    }
    stands
}
