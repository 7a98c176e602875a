// One record written: leader, directory, fields.
ghost use Rattle.std.specs.Prelude.{◌≡◌, ◌+◌, ◌*◌, ◌≤◌, length};
ghost use Rattle.memory.specs.Wrote.{Wrote};
ghost use Rattle.skeleton.specs.Emit.{sizes, entries, contents, emit};
ghost use Rattle.skeleton.specs.Place.{fields_at};
ghost use Rattle.skeleton.specs.Shape.{Bounded};
ghost use Rattle.rules.specs.Written.{field_width, written_length};
ghost use Rattle.writing.specs.House.{in_house_form};
ghost use Rattle.writing.specs.Found.{house_at, joined_at, Summed};

use crate::joining::{goes_on, is_list, next_written};
use crate::measuring::{Sum, count_written};
use crate::parts::{put_entry, put_leader};
use memory::writing::{put_byte, put_part};
use skeleton::directory::Shape;
use skeleton::place::place_at;

// The directory, without the 1E that ends it.
fn put_directory(r: &[u8], h: Shape, joins: bool, out: &mut [u8], at: usize) -> usize
    requires bounded { Bounded h × (length r.now ≤ 16777216) }
    requires h_in_bounds { (at + 14 * length (house_at joins r.now h 24) ≤ length out.old) × (sizes (house_at joins r.now h 24) ≤ 281474993487872) }
    ensures { Wrote at (entries field_width field_width 0 (house_at joins r.now h 24)) out.old result out.new }
{
    let mut q = 24;
    let mut pos = 0;
    let mut p = at;
    while let Some(field) = next_written(r, h, joins, q) {
        p = put_entry(out, p, field.tag, field.size + 1, pos);
        pos += field.size + 1;
        q = field.after;
    }
    p
}

// The bodies that join a field with this tag, from the entry at `from` on.
fn put_joined(
    r: &[u8],
    h: Shape,
    joins: bool,
    list: u32,
    from: usize,
    out: &mut [u8],
    at: usize,
) -> usize
    requires { Bounded h × (at + length (joined_at joins r.now h list from) ≤ length out.old) }
    ensures { Wrote at (joined_at joins r.now h list from) out.old result out.new }
{
    if !is_list(joins, list) {
        return at;
    }
    let mut q = from;
    let mut p = at;
    while let Some(field) = place_at(r, h, q) {
        let n = field.end - field.start;
        if !goes_on(joins, list, field.tag, n) {
            return p;
        }
        p = put_part(out, p, r, field.start, n);
        q = field.next;
    }
    p
}

// The fields, each with its 1E.
fn put_fields(r: &[u8], h: Shape, joins: bool, out: &mut [u8], at: usize) -> usize
    requires bounded { Bounded h × (length r.now ≤ 16777216) }
    requires h_in_bounds { at + sizes (house_at joins r.now h 24) ≤ length out.old }
    ensures { Wrote at (contents (house_at joins r.now h 24)) out.old result out.new }
{
    let mut q = 24;
    let mut p = at;
    while let Some(field) = next_written(r, h, joins, q) {
        let p1 = put_part(out, p, r, field.start, field.end - field.start);
        let p2 = put_joined(r, h, joins, field.tag, field.next, out, p1);
        p = put_byte(out, p2, 30);
        q = field.after;
    }
    p
}

// A record of the slice r, its written fields counted before; joins: its lists are joined, else its fields are carried as they are; first: it
// is the first of its file.
pub fn write_counted(
    r: &[u8],
    h: Shape,
    joins: bool,
    first: bool,
    s: Sum,
    out: &mut [u8],
    at: usize,
) -> usize
    requires bounded { Bounded h × (length r.now ≤ 16777216) × Summed (house_at joins r.now h 24) s }
    requires h_in_bounds { at + written_length (in_house_form joins (fields_at r.now h 24)) ≤ length out.old }
    ensures { (result ≡ at + written_length (in_house_form joins (fields_at r.now h 24))) × Wrote at (emit field_width field_width first (in_house_form joins (fields_at r.now h 24))) out.old result out.new }
{
    let base = 25 + 14 * s.fields;
    let p1 = put_leader(out, at, first, base + s.bytes, base);
    let p2 = put_directory(r, h, joins, out, p1);
    let p3 = put_byte(out, p2, 30);
    put_fields(r, h, joins, out, p3)
}

// The same, counted here.
pub fn write_record(
    r: &[u8],
    h: Shape,
    joins: bool,
    first: bool,
    out: &mut [u8],
    at: usize,
) -> usize
    requires bounded { Bounded h × (length r.now ≤ 16777216) }
    requires h_in_bounds { at + written_length (in_house_form joins (fields_at r.now h 24)) ≤ length out.old }
    ensures { (result ≡ at + written_length (in_house_form joins (fields_at r.now h 24))) × Wrote at (emit field_width field_width first (in_house_form joins (fields_at r.now h 24))) out.old result out.new }
{
    let s = count_written(r, h, joins);
    write_counted(r, h, joins, first, s, out, at)
}
