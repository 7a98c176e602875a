// The general record of the result: the update's DSID, and each unread field from the update if there, else from the dataset.
ghost use Rattle.std.specs.Prelude.{◌≡◌, false, ◌+◌, ◌*◌, ◌≤◌, length};
ghost use Rattle.base.specs.Check.{pass};
ghost use Rattle.memory.specs.Wrote.{Wrote};
ghost use Rattle.skeleton.specs.Emit.{sizes, entries, contents, emit};
ghost use Rattle.skeleton.specs.Place.{fields_at};
ghost use Rattle.skeleton.specs.Shape.{Bounded};
ghost use Rattle.rules.specs.General.{general_record, merged};
ghost use Rattle.rules.specs.Written.{field_width, written_length};
ghost use Rattle.rules.specs.declared.Mode.TheVariants.{InDataset, InUpdate};
ghost use Rattle.writing.specs.Found.{Summed};
ghost use Rattle.following.specs.Merging.{parts_from, Passing, one_if, entry_if};

use crate::sources::{TAGS, part_size, put_body};
use memory::writing::put_byte;
use skeleton::directory::Shape;
use writing::measuring::Sum;
use writing::parts::{put_entry, put_leader};

// How many fields there are of so many bytes, at most one: none has 0 bytes.
fn one_if(n: usize) -> usize
    ensures { result ≡ one_if n }
{
    if n == 0 { 0 } else { 1 }
}

// The entry of a field of so many bytes; none where there are 0, since sizes are added up.
fn put_entry_if(out: &mut [u8], at: usize, tag: u32, n: usize, pos: usize) -> usize
    requires { at + 14 * one_if n ≤ length out.old }
    ensures { Wrote at (entry_if tag n pos) out.old result out.new }
{
    if n == 0 {
        at
    } else {
        put_entry(out, at, tag, n, pos)
    }
}

// Its fields counted.
fn count_parts(old: &[u8], ho: Shape, new: &[u8], hn: Shape) -> Sum
    requires { Passing old.now ho new.now hn }
    ensures { Summed (parts_from old.now ho new.now hn 0) result }
{
    let mut fields = 0;
    let mut bytes = 0;
    for tag in TAGS {
        let n = part_size(old, ho, new, hn, tag);
        fields += one_if(n);
        bytes += n;
    }
    Sum { fields, bytes }
}

// Its directory, without the 1E that ends it.
fn put_directory(old: &[u8], ho: Shape, new: &[u8], hn: Shape, out: &mut [u8], at: usize) -> usize
    requires passing { Passing old.now ho new.now hn }
    requires hn_in_bounds { (at + 14 * length (parts_from old.now ho new.now hn 0) ≤ length out.old) × (sizes (parts_from old.now ho new.now hn 0) ≤ 281474993487872) }
    ensures { Wrote at (entries field_width field_width 0 (parts_from old.now ho new.now hn 0)) out.old result out.new }
{
    let mut pos = 0;
    let mut p = at;
    for tag in TAGS {
        let n = part_size(old, ho, new, hn, tag);
        p = put_entry_if(out, p, tag, n, pos);
        pos += n;
    }
    p
}

// Its fields, each with its 1E.
fn put_fields(old: &[u8], ho: Shape, new: &[u8], hn: Shape, out: &mut [u8], at: usize) -> usize
    requires passing { Passing old.now ho new.now hn }
    requires hn_in_bounds { at + sizes (parts_from old.now ho new.now hn 0) ≤ length out.old }
    ensures { Wrote at (contents (parts_from old.now ho new.now hn 0)) out.old result out.new }
{
    let mut p = at;
    for tag in TAGS {
        p = put_body(old, ho, new, hn, tag, out, p);
    }
    p
}

// The length of the general record of the result as it is written.
pub fn merged_length(old: &[u8], ho: Shape, new: &[u8], hn: Shape) -> usize
    requires bounded { Bounded ho × Bounded hn × (length old.now ≤ 16777216) × (length new.now ≤ 16777216) }
    requires ho_value { (general_record InDataset (fields_at old.now ho 24) ≡ pass) × (general_record InUpdate (fields_at new.now hn 24) ≡ pass) }
    ensures { result ≡ written_length (merged (fields_at old.now ho 24) (fields_at new.now hn 24)) }
{
    let s = count_parts(old, ho, new, hn);
    25 + 14 * s.fields + s.bytes
}

// The general record of the result, written.
pub fn write_merged(
    old: &[u8],
    ho: Shape,
    new: &[u8],
    hn: Shape,
    out: &mut [u8],
    at: usize,
) -> usize
    requires bounded { Bounded ho × Bounded hn × (length old.now ≤ 16777216) × (length new.now ≤ 16777216) }
    requires ho_value { (general_record InDataset (fields_at old.now ho 24) ≡ pass) × (general_record InUpdate (fields_at new.now hn 24) ≡ pass) }
    requires hn_in_bounds { at + written_length (merged (fields_at old.now ho 24) (fields_at new.now hn 24)) ≤ length out.old }
    ensures { (result ≡ at + written_length (merged (fields_at old.now ho 24) (fields_at new.now hn 24))) × Wrote at (emit field_width field_width false (merged (fields_at old.now ho 24) (fields_at new.now hn 24))) out.old result out.new }
{
    let s = count_parts(old, ho, new, hn);
    let base = 25 + 14 * s.fields;
    let p1 = put_leader(out, at, false, base + s.bytes, base);
    let p2 = put_directory(old, ho, new, hn, out, p1);
    let p3 = put_byte(out, p2, 30);
    put_fields(old, ho, new, hn, out, p3)
}
