// The leader and the directory's entries as they are written: the widths of a field length and of a field position are 5.
ghost use Rattle.std.specs.Prelude.{◌≡◌, ◌+◌, ◌≤◌, length};
ghost use Rattle.memory.specs.Wrote.{Wrote};
ghost use Rattle.skeleton.specs.Emit.{tag_bytes, middle, leading};
ghost use Rattle.rules.specs.Written.{field_width};
ghost use Rattle.writing.specs.Parts.{entry_bytes, last_of_leader};

use memory::writing::{put_decimal, put_part};

// The four bytes of a tag.
fn put_tag(out: &mut [u8], at: usize, tag: u32) -> usize
    requires { at + 4 ≤ length out.old }
    ensures { (result ≡ at + 4) × Wrote at (tag_bytes tag) out.old result out.new }
{
    out[at] = (tag / 16777216 % 256) as u8;
    out[at + 1] = (tag / 65536 % 256) as u8;
    out[at + 2] = (tag / 256 % 256) as u8;
    out[at + 3] = (tag % 256) as u8;
    at + 4
}

// The directory's entry of a field of so many bytes, its 1E included, at a position.
pub fn put_entry(out: &mut [u8], at: usize, tag: u32, size: usize, pos: usize) -> usize
    requires { at + 14 ≤ length out.old }
    ensures { (result ≡ at + 14) × Wrote at (entry_bytes tag size pos) out.old result out.new }
{
    let p1 = put_tag(out, at, tag);
    let p2 = put_decimal(out, p1, 5, size);
    put_decimal(out, p2, 5, pos)
}

// Bytes 5 to 11 of the leader, of the first record and of the others.
fn put_middle(out: &mut [u8], at: usize, first: bool) -> usize
    requires { at + 7 ≤ length out.old }
    ensures { (result ≡ at + 7) × Wrote at (middle first) out.old result out.new }
{
    if first {
        put_part(out, at, b"3LE1 09", 0, 7)
    } else {
        put_part(out, at, b" D     ", 0, 7)
    }
}

// Bytes 17 to 23 of the leader, of the first record and of the others.
fn put_last(out: &mut [u8], at: usize, first: bool) -> usize
    requires { at + 7 ≤ length out.old }
    ensures { (result ≡ at + 7) × Wrote at (last_of_leader first) out.old result out.new }
{
    if first {
        put_part(out, at, b" ! 5504", 0, 7)
    } else {
        put_part(out, at, b"   5504", 0, 7)
    }
}

// The leader of a record of so many bytes, whose fields begin at base.
pub fn put_leader(out: &mut [u8], at: usize, first: bool, total: usize, base: usize) -> usize
    requires { at + 24 ≤ length out.old }
    ensures { (result ≡ at + 24) × Wrote at (leading field_width field_width first total base) out.old result out.new }
{
    let p1 = put_decimal(out, at, 5, total);
    let p2 = put_middle(out, p1, first);
    let p3 = put_decimal(out, p2, 5, base);
    put_last(out, p3, first)
}
