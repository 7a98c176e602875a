// The values of items, where they stand.
ghost use Rattle.std.specs.Prelude.{◌≡◌, ◌++◌, ◌∷◌, [], ◌+◌, ◌*◌, ◌≤◌, ◌<◌, length};
ghost use Rattle.memory.specs.Wrote.{Wrote};
ghost use Rattle.items.specs.Items.{text_from, offset_of, value_of};

use fields::text::text_end;
use items::item::number;
use memory::writing::{put_byte, put_part};

// The offset of the value of item i.
fn offset_at(w: &[u8], i: usize) -> usize
    requires { 8 * i + 8 ≤ length w.now }
    ensures { result ≡ offset_of w.now i }
{
    let low = number(w, 8 * i + 4);
    let high = usize::from(w[8 * i + 6]);
    low + 65536 * high
}

// How long the text from o on is.
fn text_length(b: &[u8], o: usize) -> usize
    ensures { (result ≡ length (text_from b.now o)) × (result ≤ length b.now) }
{
    if b.len() <= o { 0 } else { text_end(b, o) - o }
}

// How long the value of item i is.
pub fn value_length(s: &[u8], u: &[u8], w: &[u8], i: usize) -> usize
    requires { (8 * i + 8 ≤ length w.now) × (length s.now ≤ 16777216) × (length u.now ≤ 16777216) }
    ensures { (result ≡ length (value_of s.now u.now w.now i)) × (result ≤ 16777216) }
{
    let o = offset_at(w, i);
    if w[8 * i + 7] == 0 {
        text_length(s, o)
    } else {
        text_length(u, o)
    }
}

// The text of b from o on, and 1F.
fn put_text(b: &[u8], o: usize, out: &mut [u8], at: usize) -> usize
    requires { at + length (text_from b.now o) + 1 ≤ length out.old }
    ensures { Wrote at (text_from b.now o ++ (31 ∷ [])) out.old result out.new }
{
    let n = text_length(b, o);
    if n == 0 {
        return put_byte(out, at, 31);
    }
    let p = put_part(out, at, b, o, n);
    put_byte(out, p, 31)
}

// The value of item i, and 1F.
pub fn put_value(s: &[u8], u: &[u8], w: &[u8], i: usize, out: &mut [u8], at: usize) -> usize
    requires { (8 * i + 8 ≤ length w.now) × (at + length (value_of s.now u.now w.now i) + 1 ≤ length out.old) }
    ensures { Wrote at (value_of s.now u.now w.now i ++ (31 ∷ [])) out.old result out.new }
{
    let o = offset_at(w, i);
    if w[8 * i + 7] == 0 {
        put_text(s, o, out, at)
    } else {
        put_text(u, o, out, at)
    }
}
