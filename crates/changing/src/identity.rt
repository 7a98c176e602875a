// What the identifier of an update record says, and whether it follows a version.
ghost use Rattle.std.specs.Prelude.{◌≡◌, ◌+◌, ◌≤◌, eqb, length};
ghost use Rattle.base.specs.Choice.{both};
ghost use Rattle.base.specs.Check.{ok};
ghost use Rattle.skeleton.specs.Place.{between, fields_at};
ghost use Rattle.skeleton.specs.Leader.{good};
ghost use Rattle.skeleton.specs.Record.{record_at};
ghost use Rattle.rules.specs.Record.{update_record};
ghost use Rattle.changing.specs.Given.{Says};

use contents::identifier;
use rules::Kind;
use skeleton::directory::Shape;
use skeleton::place::place_at;
use version::Version;

// Its code, its RVER, and its instruction, RUIN.
#[derive(Clone, Copy)]
pub struct Said {
    pub code: u16,
    pub rver: u16,
    pub ruin: u8,
}

// What the identifier of the record u[at..at + len] of kind k says.
pub fn read_ident(u: &[u8], at: usize, len: usize, h: Shape, k: Kind) -> Said
    requires { (record_at u.now at ≡ good len h) × (length u.now ≤ 16777216) × (update_record (fields_at (between u.now at (at + len)) h 24) ≡ ok k) }
    ensures { Says k (fields_at (between u.now at (at + len)) h 24) result }
{
    let r = &u[at..at + len];
    let Some(ident) = place_at(r, h, 24) else {
        unreachable!();
    };
    Said {
        code: identifier::code(r, ident.start, ident.end, k),
        rver: identifier::rver(r, ident.start, ident.end, k),
        ruin: identifier::ruin(r, ident.start, ident.end, k),
    }
}

// RVER is that of the version plus one, and the code is the version's.
pub fn follows(s: Said, v: Version) -> bool
    ensures { result ≡ both (eqb s.rver (v.rver + 1)) (eqb s.code v.code) }
{
    usize::from(s.rver) == usize::from(v.rver) + 1 && s.code == v.code
}
