// The keys of earlier associations of a record.
ghost use Rattle.std.specs.Prelude.{◌≡◌, true, false, [], ◌∷◌};
ghost use Rattle.base.specs.Keys.{same, among};
ghost use Rattle.fields.specs.Table.{head_of, tuple_of};
ghost use Rattle.fields.specs.Content.{fill};
ghost use Rattle.skeleton.specs.Place.{fields_at};
ghost use Rattle.skeleton.specs.Shape.{Bounded};
ghost use Rattle.rules.specs.Content.{inas_format};
ghost use Rattle.rules.specs.Associations.{inas_key, field_keys};
ghost use Rattle.contents.specs.Fit.{fits, all_fit};
ghost use Rattle.contents.specs.Keys.{list_of, inas_key_at, seen_from};

use crate::spatial::tuples_have;
use fields::{le8, le16, le32};
use rules::tags;
use skeleton::directory::Shape;
use skeleton::place::place_at;

// A key: RRNM, RRID, NIAC, NARC of an information association; RRNM, RRID of a spatial one.
// An enum of its own: two sorts of key, neither of them none or a refusal.
#[derive(Clone, Copy)]
pub enum Key {
    Information(u8, u32, u16, u16),
    Spatial(u8, u32),
}

// The key of an INAS.
pub fn inas_key(b: &[u8]) -> Key
    requires { fill (head_of (inas_format false b.now)) (tuple_of (inas_format false b.now)) b.now ≡ true }
    ensures { result ≡ inas_key_at b.now }
{
    Key::Information(le8(b, 0), le32(b, 1), le16(b, 5), le16(b, 7))
}

// Whether an INAS has this key.
fn inas_is(b: &[u8], x: u8, y: u32, z: u16, w: u16) -> bool
    requires { fill (head_of (inas_format false b.now)) (tuple_of (inas_format false b.now)) b.now ≡ true }
    ensures { result ≡ same (x ∷ y ∷ z ∷ w ∷ []) (inas_key b.now) }
{
    if le8(b, 0) != x {
        return false;
    }
    if le32(b, 1) != y {
        return false;
    }
    if le16(b, 5) != z {
        return false;
    }
    le16(b, 7) == w
}

// Whether the key is one of the field's, INAS or SPAS.
fn field_has(b: &[u8], tag: u32, key: Key) -> bool
    requires { fits false (record { tag = tag; body = b.now }) ≡ true }
    ensures { result ≡ among (list_of key) (field_keys (record { tag = tag; body = b.now })) }
{
    match key {
        Key::Information(x, y, z, w) => tag == tags::INAS && inas_is(b, x, y, z, w),
        Key::Spatial(x, y) => tag == tags::SPAS && tuples_have(b, b.len() / 15, x, y),
    }
}

// Whether the key is one of the first n fields from the entry at p on.
pub fn fields_have(r: &[u8], h: Shape, p: usize, n: usize, key: Key) -> bool
    requires { Bounded h × (all_fit false (fields_at r.now h p) ≡ true) }
    ensures { result ≡ seen_from r.now h p n (list_of key) }
{
    let mut q = p;
    for _ in 0..n {
        let Some(field) = place_at(r, h, q) else {
            return false;
        };
        if field_has(&r[field.start..field.end], field.tag, key) {
            return true;
        }
        q = field.next;
    }
    false
}
