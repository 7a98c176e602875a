// Whether the FOID of an update record is that of a version.
ghost use Rattle.std.specs.Prelude.{◌≡◌, true, [], ◌+◌, ◌≤◌, length};
ghost use Rattle.base.specs.Keys.{same};
ghost use Rattle.base.specs.Lists.{gather, Each};
ghost use Rattle.skeleton.specs.Place.{between, fields_at};
ghost use Rattle.skeleton.specs.Leader.{good};
ghost use Rattle.skeleton.specs.Record.{record_at};
ghost use Rattle.fields.specs.Table.{head_of};
ghost use Rattle.fields.specs.Content.{fill};
ghost use Rattle.fields.specs.declared.Format.TheVariants.{Foid};
ghost use Rattle.rules.specs.Record.{foid_of};
ghost use Rattle.rules.specs.Written.{field_as};
ghost use Rattle.version.specs.Held.{RightFoid, foid_bodies};
ghost use Rattle.changing.specs.Foids.{FoidFilled, agreeing, foid_test, same_from};

use fields::number::{le16, le32};
use rules::tags;
use skeleton::directory::Shape;
use skeleton::place::place_at;
use version::Version;

// Two FOIDs are equal: AGEN, FIDN, FIDS.
fn equal_foids(a: &[u8], b: &[u8]) -> bool
    requires { (fill (head_of Foid) [] a.now ≡ true) × (fill (head_of Foid) [] b.now ≡ true) }
    ensures { result ≡ same (foid_of a.now) (foid_of b.now) }
{
    le16(a, 0) == le16(b, 0) && le32(a, 2) == le32(b, 2) && le16(a, 6) == le16(b, 6)
}

// The FOID from `from` up to `to` of u is that of version v, if v has one.
fn held_foid(d: &[u8], u: &[u8], from: usize, to: usize, v: Version) -> bool
    requires { (from ≤ to) × (to ≤ length u.now) × (length d.now ≤ 16777216) × (length u.now ≤ 16777216)
        × (fill (head_of Foid) [] (between u.now from to) ≡ true) × Each RightFoid (foid_bodies d.now u.now v) }
    ensures { result ≡ same (foid_of (between u.now from to)) (gather foid_of (foid_bodies d.now u.now v)) }
{
    if v.foids == 0 {
        return false;
    }
    let i = v.foid;
    if v.slice == 0 {
        return equal_foids(&u[from..to], &d[i..i + 8]);
    }
    equal_foids(&u[from..to], &u[i..i + 8])
}

// A field from `from` up to `to` of u agrees with version v: it is no FOID, or that of v.
fn agrees(d: &[u8], u: &[u8], tag: u32, from: usize, to: usize, v: Version) -> bool
    requires { (from ≤ to) × (to ≤ length u.now) × (length d.now ≤ 16777216) × (length u.now ≤ 16777216)
        × FoidFilled (field_as tag (between u.now from to)) × Each RightFoid (foid_bodies d.now u.now v) }
    ensures { result ≡ agreeing (gather foid_of (foid_bodies d.now u.now v)) (field_as tag (between u.now from to)) }
{
    tag != tags::FOID || held_foid(d, u, from, to, v)
}

// The number, from 1, of the first field of the record u[at..at + len] that is another FOID than that of version v (10); none where each FOID is the version's.
pub fn other_foid(d: &[u8], u: &[u8], at: usize, len: usize, h: Shape, v: Version) -> Option<usize>
    requires { (record_at u.now at ≡ good len h) × (length d.now ≤ 16777216) × (length u.now ≤ 16777216)
        × Each FoidFilled (fields_at (between u.now at (at + len)) h 24) × Each RightFoid (foid_bodies d.now u.now v) }
    ensures { foid_test result ≡ same_from (gather foid_of (foid_bodies d.now u.now v)) 1 (fields_at (between u.now at (at + len)) h 24) }
{
    let stop = at + len;
    let mut q = 24;
    let mut i = 1;
    while let Some(field) = place_at(&u[at..stop], h, q) {
        if !agrees(d, u, field.tag, at + field.start, at + field.end, v) {
            return Some(i);
        }
        q = field.next;
        i += 1;
    }
    None
}
