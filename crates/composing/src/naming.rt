// Whether the records that the associations of one record name, INAS and SPAS, stand in the end, where the dataset has them all.
ghost use Rattle.std.specs.Prelude.{◌≡◌, true, [], ◌∷◌, ◌≤◌, length};
ghost use Rattle.base.specs.Lists.{gather};
ghost use Rattle.fields.specs.Table.{head_of, tuple_of};
ghost use Rattle.fields.specs.Content.{fill};
ghost use Rattle.fields.specs.declared.Format.TheVariants.{InasNew, Spas};
ghost use Rattle.skeleton.specs.Place.{fields_at};
ghost use Rattle.skeleton.specs.Shape.{Bounded};
ghost use Rattle.rules.specs.Associations.{inas_key, spas_keys, field_keys};
ghost use Rattle.references.specs.Readable.{readable, all_readable};
ghost use Rattle.composing.specs.Tied.{Noted, StaysAll};

use crate::standing::stays;
use keys::look::key_at;
use rules::tags;
use skeleton::directory::Shape;
use skeleton::place::place_at;
use sorting::limits::Limits;

// The record that the INAS b names.
fn inas_stands(u: &[u8], us: usize, flags: &[u8], out: &[u8], lim: Limits, b: &[u8]) -> bool
    requires { Noted u.now us lim out.now × (14000 ≤ length flags.now) × (fill (head_of InasNew) (tuple_of InasNew) b.now ≡ true) }
    ensures { StaysAll u.now us flags.now (inas_key b.now ∷ []) result }
{
    let key = key_at(b, 0);
    stays(u, us, flags, out, lim, key)
}

// The records that the tuples of the SPAS b name.
fn spas_stand(u: &[u8], us: usize, flags: &[u8], out: &[u8], lim: Limits, b: &[u8]) -> bool
    requires { Noted u.now us lim out.now × (14000 ≤ length flags.now) × (length b.now ≤ 16777216) × (fill (head_of Spas) (tuple_of Spas) b.now ≡ true) }
    ensures { StaysAll u.now us flags.now (spas_keys b.now) result }
{
    let mut at = 0;
    // A `while`: each key is the front of a tuple of 15 bytes, and is read where it stands.
    while at < b.len() {
        let key = key_at(b, at);
        if !stays(u, us, flags, out, lim, key) {
            return false;
        }
        at += 15;
    }
    true
}

// The records that a field with this tag names.
fn field_stands(
    u: &[u8],
    us: usize,
    flags: &[u8],
    out: &[u8],
    lim: Limits,
    tag: u32,
    b: &[u8],
) -> bool
    requires { Noted u.now us lim out.now × (14000 ≤ length flags.now) × (length b.now ≤ 16777216) × (readable (record { tag = tag; body = b.now }) ≡ true) }
    ensures { StaysAll u.now us flags.now (field_keys (record { tag = tag; body = b.now })) result }
{
    if tag == tags::INAS {
        return inas_stands(u, us, flags, out, lim, b);
    }
    if tag == tags::SPAS {
        return spas_stand(u, us, flags, out, lim, b);
    }
    true
}

// The records that the record r names.
pub fn fields_stand(
    u: &[u8],
    us: usize,
    flags: &[u8],
    out: &[u8],
    lim: Limits,
    r: &[u8],
    h: Shape,
) -> bool
    requires { Noted u.now us lim out.now × (14000 ≤ length flags.now) × Bounded h × (length r.now ≤ 16777216) × (all_readable (fields_at r.now h 24) ≡ true) }
    ensures { StaysAll u.now us flags.now (gather field_keys (fields_at r.now h 24)) result }
{
    let mut q = 24;
    while let Some(field) = place_at(r, h, q) {
        let b = &r[field.start..field.end];
        if !field_stands(u, us, flags, out, lim, field.tag, b) {
            return false;
        }
        q = field.next;
    }
    true
}
