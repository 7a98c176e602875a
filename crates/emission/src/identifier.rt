// The identifier, and what follows from the kind.
ghost use Rattle.std.specs.Prelude.{◌≡◌, ◌∷◌, [], ◌+◌, ◌≤◌, length};
ghost use Rattle.memory.specs.Wrote.{Wrote};
ghost use Rattle.skeleton.specs.Emit.{contents};
ghost use Rattle.rules.specs.Kind.{rcnm, tag_of, coded};
ghost use Rattle.rules.specs.Written.{field_as, coord_tag};
ghost use Rattle.emission.specs.Fields.{code_part, ident_part, ident_size};

use memory::writing::{put_byte, put_little_endian};
use rules::{Kind, tags};
use version::Version;

// RCNM.
fn record_name(kind: Kind) -> u8
    ensures { result ≡ rcnm kind }
{
    match kind {
        Kind::Info => 150,
        Kind::Point => 110,
        Kind::Multi => 115,
        Kind::Feature => 100,
    }
}

// The tag of the identifier.
pub fn first_tag(kind: Kind) -> u32
    ensures { result ≡ tag_of kind }
{
    match kind {
        Kind::Info => tags::IRID,
        Kind::Point => tags::PRID,
        Kind::Multi => tags::MRID,
        Kind::Feature => tags::FRID,
    }
}

// The tag of the coordinates: C2IT for a point, else C2IL.
pub fn coordinate_tag(kind: Kind) -> u32
    ensures { result ≡ coord_tag kind }
{
    match kind {
        Kind::Point => tags::C2IT,
        Kind::Info | Kind::Multi | Kind::Feature => tags::C2IL,
    }
}

// Whether the identifier has a code.
fn has_code(kind: Kind) -> bool
    ensures { result ≡ coded kind }
{
    match kind {
        Kind::Info | Kind::Feature => true,
        Kind::Point | Kind::Multi => false,
    }
}

// How long the identifier is.
pub fn ident_size(kind: Kind) -> usize
    ensures { (result ≡ ident_size (coded kind)) × (result ≤ 10) }
{
    if has_code(kind) { 10 } else { 8 }
}

// The code, where the kind has one.
fn put_code(kind: Kind, code: u16, out: &mut [u8], at: usize) -> usize
    requires { at + length (code_part (coded kind) code) ≤ length out.old }
    ensures { Wrote at (code_part (coded kind) code) out.old result out.new }
{
    if has_code(kind) {
        put_little_endian(out, at, 2, code as usize)
    } else {
        at
    }
}

// The identifier: RCNM, RCID, the code, RVER, RUIN 1.
fn put_ident(v: Version, out: &mut [u8], at: usize) -> usize
    requires { at + length (ident_part v) ≤ length out.old }
    ensures { Wrote at (ident_part v) out.old result out.new }
{
    let kind = v.kind;
    let p1 = put_byte(out, at, record_name(kind));
    let p2 = put_little_endian(out, p1, 4, v.rcid as usize);
    let p3 = put_code(kind, v.code, out, p2);
    let p4 = put_little_endian(out, p3, 2, v.rver as usize);
    put_byte(out, p4, 1)
}

// The identifier and its 1E.
pub fn put_first(v: Version, out: &mut [u8], at: usize) -> usize
    requires { at + ident_size (coded v.kind) + 1 ≤ length out.old }
    ensures { (result ≡ at + ident_size (coded v.kind) + 1) × Wrote at (contents (field_as (tag_of v.kind) (ident_part v) ∷ [])) out.old result out.new }
{
    let p = put_ident(v, out, at);
    put_byte(out, p, 30)
}
