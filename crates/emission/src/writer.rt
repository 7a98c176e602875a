// The record that the workspace holds, written: leader, directory, fields.
ghost use Rattle.std.specs.Prelude.{◌≡◌, false, ◌+◌, ◌*◌, ◌≤◌, length};
ghost use Rattle.memory.specs.Put.{part};
ghost use Rattle.memory.specs.Wrote.{Wrote};
ghost use Rattle.skeleton.specs.Emit.{sizes, contents, emit};
ghost use Rattle.forest.specs.Forest.{Forest};
ghost use Rattle.forest.specs.Flat.{flat};
ghost use Rattle.rules.specs.Tags.{FOID};
ghost use Rattle.rules.specs.Record.{Rec};
ghost use Rattle.rules.specs.Written.{field_width, list_field, tree_bytes, written_fields, written_length};
ghost use Rattle.items.specs.Items.{its};
ghost use Rattle.cells.specs.Cells.{bodies_of};
ghost use Rattle.version.specs.Held.{Held};
ghost use Rattle.emission.specs.Bodies.{joined, inas_fields};
ghost use Rattle.emission.specs.Fields.{foid_part, last_fields, version_fields, foid_size, list_size, last_size, total, Few, Indexed, Placed, Listed, Writable, Recorded};

use crate::bodies::put_inas_fields;
use crate::directory::put_directory;
use crate::identifier::put_first;
use crate::lists::{put_attributes, put_list, put_spatial};
use crate::measuring::{Sizes, measure, sum_up};
use memory::writing::put_byte;
use version::Version;
use version::areas::{inas_of, list_of, spas_of};
use writing::parts::put_leader;

// The FOID, if there is one, and its 1E.
fn put_foid(d: &[u8], u: &[u8], v: Version, out: &mut [u8], at: usize) -> usize
    requires { (length (foid_part d.now u.now v) ≡ foid_size v.foids) × (at + list_size (foid_size v.foids) ≤ length out.old) }
    ensures { Wrote at (contents (list_field FOID (foid_part d.now u.now v))) out.old result out.new }
{
    if v.foids == 0 {
        return at;
    }
    if v.slice == 0 {
        put_list(d, v.foid, 8, out, at)
    } else {
        put_list(u, v.foid, 8, out, at)
    }
}

// What follows the attributes: the INAS fields, the coordinates and the spatial associations.
fn put_last(
    d: &[u8],
    u: &[u8],
    list: &[u8],
    inas: &[u8],
    spas: &[u8],
    v: Version,
    out: &mut [u8],
    at: usize,
) -> usize
    requires few { Few v × (7 * v.inas ≤ length inas.now) × Placed d.now u.now list.now spas.now v }
    requires room { at + last_size v (sizes (inas_fields (bodies_of d.now u.now inas.now v.inas))) ≤ length out.old }
    ensures { Wrote at (contents (last_fields d.now u.now inas.now v (part 0 (8 * v.coord) list.now) (joined (bodies_of d.now u.now spas.now v.spas)))) out.old result out.new }
{
    let p1 = put_inas_fields(d, u, inas, v.inas, out, at);
    let p2 = put_list(list, 0, 8 * v.coord, out, p1);
    put_spatial(d, u, spas, v.spas, out, p2)
}

// The fields, each with its 1E.
fn put_contents(
    d: &[u8],
    u: &[u8],
    list: &[u8],
    inas: &[u8],
    spas: &[u8],
    v: Version,
    m: Sizes,
    out: &mut [u8],
    at: usize,
) -> usize
    requires indexed { Indexed d.now u.now inas.now v m × Placed d.now u.now list.now spas.now v × Listed d.now u.now list.now v m }
    requires room { at + (total v m).bytes ≤ length out.old }
    ensures { (f : Forest) → its d.now u.now list.now 0 v.attr ≡ flat 0 f → Wrote at (contents (version_fields d.now u.now inas.now v (tree_bytes f) (part 0 (8 * v.coord) list.now) (joined (bodies_of d.now u.now spas.now v.spas)))) out.old result out.new }
{
    let p1 = put_first(v, out, at);
    let p2 = put_foid(d, u, v, out, p1);
    let p3 = put_attributes(d, u, list, v.attr, m.attr, out, p2);
    put_last(d, u, list, inas, spas, v, out, p3)
}

// A record from its areas, written from `at` on; m is what was counted.
fn put_record(
    d: &[u8],
    u: &[u8],
    list: &[u8],
    inas: &[u8],
    spas: &[u8],
    v: Version,
    m: Sizes,
    out: &mut [u8],
    at: usize,
) -> usize
    requires { Writable d.now u.now list.now inas.now spas.now v m at (length out.old) }
    ensures { Recorded d.now u.now list.now inas.now spas.now v m at out.old result out.new }
{
    let s = sum_up(v, m);
    let base = 25 + 14 * s.fields;
    let p1 = put_leader(out, at, false, base + s.bytes, base);
    let p2 = put_directory(d, u, inas, v, m, out, p1);
    let p3 = put_byte(out, p2, 30);
    put_contents(d, u, list, inas, spas, v, m, out, p3)
}

// The record that the workspace holds, written from `at` on; d the dataset, u the update.
pub fn write_version(
    d: &[u8],
    u: &[u8],
    work: &[u8],
    v: Version,
    out: &mut [u8],
    at: usize,
) -> usize
    requires d_len_bound { (length d.now ≤ 16777216) × (length u.now ≤ 16777216) × (400000 ≤ length work.now) }
    requires held { (r : Rec) × Held d.now u.now work.now v r × (at + written_length (written_fields r) ≤ length out.old) }
    ensures { (r : Rec) → Held d.now u.now work.now v r → (result ≡ at + written_length (written_fields r)) × Wrote at (emit field_width field_width false (written_fields r)) out.old result out.new }
{
    let m = measure(v);
    put_record(
        d,
        u,
        list_of(work),
        inas_of(work),
        spas_of(work),
        v,
        m,
        out,
        at,
    )
}
