// Writers of words. What has no room in the slice is lost, and the index after it is that of a slice with room: so it is known in the end
// whether all had room, and nothing has to be measured before.
ghost use Rattle.std.specs.Prelude.{◌≡◌, ◌+◌, ◌^◌, ◌≤◌, ◌<◌, length, set};
ghost use Rattle.memory.specs.Wrote.{Wrote};
ghost use Rattle.skeleton.specs.Digits.{fewest_digits, in_fewest_digits};
ghost use Rattle.listing.specs.Lines.{spaced};

use memory::writing::put_decimal;

// A byte, where there is room for it.
fn store(out: &mut [u8], at: usize, x: u8)
    ensures { out.new ≡ set out.old at x }
{
    if at < out.len() {
        out[at] = x;
    }
}

// A text.
pub fn put_text(out: &mut [u8], at: usize, text: &[u8]) -> usize
    requires { at + length text.now < 2 ^ 64 }
    ensures { Wrote at text.now out.old result out.new }
{
    for k in 0..text.len() {
        store(out, at + k, text[k]);
    }
    at + text.len()
}

// How many digits a number has.
fn digits_of(x: usize) -> usize
    ensures { (result ≡ fewest_digits x) × (result ≤ 20) }
{
    let mut rest = x;
    let mut w = 1;
    while 10 <= rest {
        rest /= 10;
        w += 1;
    }
    w
}

// A number in as few digits as hold it.
pub fn put_number(out: &mut [u8], at: usize, x: usize) -> usize
    requires { at + 20 < 2 ^ 64 }
    ensures { Wrote at (in_fewest_digits x) out.old result out.new × (result ≤ at + 20) }
{
    let w = digits_of(x);
    let mut text = [0u8; 20];
    put_decimal(&mut text, 0, w, x);
    put_text(out, at, &text[..w])
}

// A blank, and a number behind it.
pub fn put_spaced(out: &mut [u8], at: usize, x: usize) -> usize
    requires { at + 21 < 2 ^ 64 }
    ensures { Wrote at (spaced x) out.old result out.new × (result ≤ at + 21) }
{
    let p = put_text(out, at, b" ");
    put_number(out, p, x)
}
