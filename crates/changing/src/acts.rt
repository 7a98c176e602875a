// What an update record makes of what stands under its key, by its instruction: each function answers what stands there then, or the fault.
ghost use Rattle.std.specs.Prelude.{◌≡◌, List, ℕ, ◌+◌, ◌≤◌, length};
ghost use Rattle.std.proofs.Math.Option.{Option};
ghost use Rattle.skeleton.specs.File.{Field};
ghost use Rattle.skeleton.specs.Place.{between, fields_at};
ghost use Rattle.rules.specs.Record.{Rec, key_named};
ghost use Rattle.rules.specs.Change.{fitting, inserted, deleted, modified};
ghost use Rattle.rules.specs.declared.Kind.{Kind as KindOf};
ghost use Rattle.sequence.specs.Keyed.{Under};
ghost use Rattle.updates.specs.Acts.{chart};
ghost use Rattle.version.specs.Held.{Held};
ghost use Rattle.version.specs.Present.{HeldAs, ChangedTo, FlagsKept};
ghost use Rattle.acting.specs.Ready.{Small, Modifies};
ghost use Rattle.changing.specs.Given.{Given, Says, reworked};

use crate::foid::other_foid;
use crate::identity::{Said, follows};
use acting::act_fields;
use base::Fault;
use emission::version_length;
use loading::record::load_record;
use rules::Kind;
use skeleton::directory::Shape;
use version::Version;

// The version stands there, if it can be written: 12.
fn fits(d: &[u8], u: &[u8], v: Version, work: &[u8]) -> Result<Option<Version>, Fault>
    requires sizes { (length d.now ≤ 16777216) × (length u.now ≤ 16777216) × (400000 ≤ length work.now) }
    requires held { (r : Rec) × Held d.now u.now work.now v r }
    ensures { (r : Rec) → Held d.now u.now work.now v r → ChangedTo d.now u.now work.now (fitting r) result }
{
    if 99999 < version_length(d, u, work, v) {
        return Err(Fault {
            number: 12,
            field: 0,
            tuple: 0,
        });
    }
    Ok(Some(v))
}

// Insert: nothing stands there (7), RVER is 1 (10), and then 12.
pub fn insert(
    d: &[u8],
    u: &[u8],
    at: usize,
    len: usize,
    h: Shape,
    k: Kind,
    s: Said,
    p: Option<Version>,
    work: &mut [u8],
) -> Result<Option<Version>, Fault>
    requires { Given d.now u.now work.old at len h k × Says k (fields_at (between u.now at (at + len)) h 24) s × (s.ruin ≡ 1) }
    ensures { ((o : Option Rec) → HeldAs d.now u.now work.old p o
        → ChangedTo d.now u.now work.new (inserted k (fields_at (between u.now at (at + len)) h 24) o) result)
        × FlagsKept work.old work.new }
{
    if p.is_some() {
        return Err(Fault {
            number: 7,
            field: 1,
            tuple: 0,
        });
    }
    if s.rver != 1 {
        return Err(Fault {
            number: 10,
            field: 1,
            tuple: 0,
        });
    }
    let v = load_record(u, at, len, h, 1, k, work);
    fits(d, u, v, work)
}

// Delete: a record stands there (9), which RVER and the code follow (10).
pub fn delete(s: Said, p: Option<Version>) -> Result<Option<Version>, Fault>
    ensures { (k : KindOf) (fs : List Field) (d u w : List ℕ) (o : Option Rec) → Says k fs s → HeldAs d u w p o → ChangedTo d u w (deleted k fs o) result }
{
    let Some(v) = p else {
        return Err(Fault {
            number: 9,
            field: 1,
            tuple: 0,
        });
    };
    if !follows(s, v) {
        return Err(Fault {
            number: 10,
            field: 1,
            tuple: 0,
        });
    }
    Ok(None)
}

// The fields of a modify act on version v, which then has the new RVER.
fn revise(
    d: &[u8],
    u: &[u8],
    at: usize,
    len: usize,
    h: Shape,
    rver: u16,
    v: Version,
    work: &mut [u8],
) -> Result<Option<Version>, Fault>
    requires modifies { Modifies u.now at len h v × (length d.now ≤ 16777216) × (length u.now ≤ 16777216) × (400000 ≤ length work.old) × Small v }
    requires held { (r : Rec) × Held d.now u.now work.old v r }
    ensures { ((r : Rec) → Held d.now u.now work.old v r
        → ChangedTo d.now u.now work.new (reworked rver (fields_at (between u.now at (at + len)) h 24) r) result)
        × FlagsKept work.old work.new }
{
    let e = act_fields(d, u, at, len, h, v, work)?;
    fits(d, u, Version { rver, ..e }, work)
}

// Modify: a record stands there (9), which RVER and the code follow and whose FOID is sent, if one is (10); its fields act in order; and then 12.
pub fn modify(
    d: &[u8],
    u: &[u8],
    at: usize,
    len: usize,
    h: Shape,
    k: Kind,
    s: Said,
    p: Option<Version>,
    work: &mut [u8],
) -> Result<Option<Version>, Fault>
    requires given { Given d.now u.now work.old at len h k × Says k (fields_at (between u.now at (at + len)) h 24) s × (s.ruin ≡ 1 → ⊥) × (s.ruin ≡ 2 → ⊥) }
    requires held_as { (o : Option Rec) × HeldAs d.now u.now work.old p o × Under chart (key_named k (fields_at (between u.now at (at + len)) h 24)) o }
    ensures { ((o : Option Rec) → HeldAs d.now u.now work.old p o
        → ChangedTo d.now u.now work.new (modified k (fields_at (between u.now at (at + len)) h 24) o) result)
        × FlagsKept work.old work.new }
{
    let Some(v) = p else {
        return Err(Fault {
            number: 9,
            field: 1,
            tuple: 0,
        });
    };
    if !follows(s, v) {
        return Err(Fault {
            number: 10,
            field: 1,
            tuple: 0,
        });
    }
    if let Some(i) = other_foid(d, u, at, len, h, v) {
        return Err(Fault {
            number: 10,
            field: i,
            tuple: 0,
        });
    }
    revise(d, u, at, len, h, s.rver, v, work)
}
