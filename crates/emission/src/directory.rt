// The directory of the record that the workspace holds.
ghost use Rattle.std.specs.Prelude.{◌≡◌, List, ℕ, ◌+◌, ◌*◌, ◌≤◌, length};
ghost use Rattle.memory.specs.Wrote.{Wrote};
ghost use Rattle.skeleton.specs.Emit.{entries};
ghost use Rattle.rules.specs.Written.{field_width};
ghost use Rattle.emission.specs.Fields.{last_fields, version_fields, last_count, total, Indexed};

use crate::bodies::put_inas_entries;
use crate::identifier::{coordinate_tag, first_tag, ident_size};
use crate::lists::{list_size, put_list_entry};
use crate::measuring::{Sizes, foid_size};
use rules::tags;
use version::Version;
use writing::parts::put_entry;

// The entries of what follows the attributes: the INAS fields, of which the cells are in `inas`, the coordinates and the spatial associations.
fn put_last_entries(
    d: &[u8],
    u: &[u8],
    inas: &[u8],
    v: Version,
    m: Sizes,
    out: &mut [u8],
    at: usize,
    pos: usize,
) -> usize
    requires indexed { Indexed d.now u.now inas.now v m }
    requires pos_bound { (pos ≤ 281474976710656) × (at + 14 * last_count v ≤ length out.old) }
    ensures { (result ≡ at + 14 * last_count v) × ((c s : List ℕ) → length c ≡ 8 * v.coord → length s ≡ 15 * v.spas → Wrote at (entries field_width field_width pos (last_fields d.now u.now inas.now v c s)) out.old result out.new) }
{
    let kind = v.kind;
    let p1 = put_inas_entries(d, u, inas, v.inas, out, at, pos);
    let coord = 8 * v.coord;
    let pos2 = pos + m.inas;
    let p2 = put_list_entry(out, p1, coordinate_tag(kind), coord, pos2);
    let pos3 = pos2 + list_size(coord);
    put_list_entry(out, p2, tags::SPAS, 15 * v.spas, pos3)
}

// The directory, without the 1E that ends it.
pub fn put_directory(
    d: &[u8],
    u: &[u8],
    inas: &[u8],
    v: Version,
    m: Sizes,
    out: &mut [u8],
    at: usize,
) -> usize
    requires { Indexed d.now u.now inas.now v m × (at + 14 * (total v m).fields ≤ length out.old) }
    ensures { (result ≡ at + 14 * (total v m).fields) × ((t c s : List ℕ) → length t ≡ m.attr → length c ≡ 8 * v.coord → length s ≡ 15 * v.spas → Wrote at (entries field_width field_width 0 (version_fields d.now u.now inas.now v t c s)) out.old result out.new) }
{
    let kind = v.kind;
    let pos1 = ident_size(kind) + 1;
    let p1 = put_entry(out, at, first_tag(kind), pos1, 0);
    let foid = foid_size(v.foids);
    let p2 = put_list_entry(out, p1, tags::FOID, foid, pos1);
    let pos2 = pos1 + list_size(foid);
    let p3 = put_list_entry(out, p2, tags::ATTR, m.attr, pos2);
    let pos3 = pos2 + list_size(m.attr);
    put_last_entries(d, u, inas, v, m, out, p3, pos3)
}
