// How long the record that the workspace holds is when it is written.
ghost use Rattle.std.specs.Prelude.{◌≡◌, ◌≤◌, ◌+◌, ◌*◌, length};
ghost use Rattle.rules.specs.Record.{Rec};
ghost use Rattle.rules.specs.Written.{written_fields, written_length};
ghost use Rattle.version.specs.Held.{Held};
ghost use Rattle.emission.specs.Fields.{foid_size, list_count, last_count, last_size, total, sizes_of, Few};

use crate::identifier::ident_size;
use crate::lists::{list_count, list_size};
use version::Version;
use writing::measuring::Sum;

// The bytes of the attributes' tuples, and those of the INAS fields, the 1E of each included.
#[derive(Clone, Copy)]
pub struct Sizes {
    pub attr: usize,
    pub inas: usize,
}

// The bytes of a FOID, or none.
pub fn foid_size(foids: usize) -> usize
    ensures { (result ≡ foid_size foids) × (result ≤ 8) }
{
    if foids == 0 { 0 } else { 8 }
}

// The parts whose bytes are no multiples of their counts: the version keeps them, so that a record is not measured again after each modify.
pub fn measure(v: Version) -> Sizes
    ensures { result ≡ sizes_of v }
{
    Sizes {
        attr: v.attrbytes,
        inas: v.inasbytes,
    }
}

// How many fields follow the attributes.
fn count_last(v: Version) -> usize
    requires { Few v }
    ensures { (result ≡ last_count v) × (result ≤ 100002) }
{
    v.inas + list_count(8 * v.coord) + list_count(15 * v.spas)
}

// How many bytes they have, where those of the INAS fields are given.
fn measure_last(v: Version, inas: usize) -> usize
    requires { Few v × (inas ≤ 1000000000000) }
    ensures { (result ≡ last_size v inas) × (result ≤ inas + 3000000) }
{
    inas + list_size(8 * v.coord) + list_size(15 * v.spas)
}

// How many fields there are.
fn count_fields(v: Version, attr: usize) -> usize
    requires { Few v }
    ensures { (result ≡ 1 + list_count (foid_size v.foids) + list_count attr + last_count v) × (result ≤ 100005) }
{
    let foid = foid_size(v.foids);
    1 + list_count(foid) + list_count(attr) + count_last(v)
}

// How many bytes they have.
fn count_bytes(v: Version, m: Sizes) -> usize
    requires { Few v × (m.attr ≤ 1000000000000) × (m.inas ≤ 1000000000000) }
    ensures { result ≡ (total v m).bytes }
{
    let foid = foid_size(v.foids);
    let kind = v.kind;
    let first = ident_size(kind) + 1 + list_size(foid);
    first + list_size(m.attr) + measure_last(v, m.inas)
}

// All fields counted.
pub fn sum_up(v: Version, m: Sizes) -> Sum
    requires { Few v × (m.attr ≤ 1000000000000) × (m.inas ≤ 1000000000000) }
    ensures { result ≡ total v m }
{
    let fields = count_fields(v, m.attr);
    let bytes = count_bytes(v, m);
    Sum { fields, bytes }
}

// How long the record that the workspace holds is when it is written; d the dataset, u the update: it stands in them, and they are not read.
pub fn version_length(d: &[u8], u: &[u8], work: &[u8], v: Version) -> usize
    requires d_len_bound { (length d.now ≤ 16777216) × (length u.now ≤ 16777216) × (400000 ≤ length work.now) }
    requires held { (r : Rec) × Held d.now u.now work.now v r }
    ensures { (r : Rec) → Held d.now u.now work.now v r → result ≡ written_length (written_fields r) }
{
    let m = measure(v);
    let s = sum_up(v, m);
    25 + 14 * s.fields + s.bytes
}
