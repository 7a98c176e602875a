// One update record on the latest version of the record that it names.
#![tactic(auto)]

use acts::{delete, insert, modify};
use base::Fault;
use identity::read_ident;
use rules::Kind;
use skeleton::directory::Shape;
use version::Version;

pub mod acts;
pub mod foid;
pub mod identity;

ghost use Rattle.std.specs.Prelude.{◌≡◌, ◌+◌, ◌≤◌, length};
ghost use Rattle.std.proofs.Math.Option.{Option};
ghost use Rattle.base.specs.Check.{ok};
ghost use Rattle.skeleton.specs.Place.{between, fields_at};
ghost use Rattle.skeleton.specs.Leader.{good};
ghost use Rattle.skeleton.specs.Record.{record_at};
ghost use Rattle.rules.specs.Record.{Rec, key_named, update_record};
ghost use Rattle.rules.specs.Change.{change as change_of};
ghost use Rattle.sequence.specs.Keyed.{Under};
ghost use Rattle.updates.specs.Acts.{chart};
ghost use Rattle.version.specs.Present.{HeldAs, ChangedTo, FlagsKept};

// The record u[at..at + len] of kind k acts, by its instruction, on what stands under the key that it names, if anything does; d is the
// dataset. The answer is what stands there then, or the fault.
pub fn change(
    d: &[u8],
    u: &[u8],
    at: usize,
    len: usize,
    h: Shape,
    k: Kind,
    p: Option<Version>,
    work: &mut [u8],
) -> Result<Option<Version>, Fault>
    requires at_value { (record_at u.now at ≡ good len h) × (length d.now ≤ 16777216) × (length u.now ≤ 16777216) × (400000 ≤ length work.old) }
    requires h_value { (update_record (fields_at (between u.now at (at + len)) h 24) ≡ ok k)
        × ((o : Option Rec) × HeldAs d.now u.now work.old p o × Under chart (key_named k (fields_at (between u.now at (at + len)) h 24)) o) }
    ensures { ((o : Option Rec) → HeldAs d.now u.now work.old p o → Under chart (key_named k (fields_at (between u.now at (at + len)) h 24)) o
        → ChangedTo d.now u.now work.new (change_of k (fields_at (between u.now at (at + len)) h 24) o) result)
        × FlagsKept work.old work.new }
{
    let s = read_ident(u, at, len, h, k);
    if s.ruin == 1 {
        return insert(d, u, at, len, h, k, s, p, work);
    }
    if s.ruin == 2 {
        return delete(s, p);
    }
    modify(d, u, at, len, h, k, s, p, work)
}
