// Blocks of 64 items, weighed at once: the compiler makes vector code of the loop, so that a search passes thousands of items in no time.
ghost use Rattle.std.specs.Prelude.{◌≡◌, ◌+◌, ◌*◌, ◌≤◌, ◌<◌, length};
ghost use Rattle.items.specs.Items.{u16};
ghost use Rattle.edits.specs.Walks.{heft, weight};

// Two numbers of two bytes, such as the depth and the code of an item, as one: the compiler reads the four bytes at once.
fn label(w: &[u8], at: usize) -> u32
    requires { at + 4 ≤ length w.now }
    ensures { (result ≡ u16 w.now at + 65536 * u16 w.now (at + 2)) × (u16 w.now at < 65536) }
{
    fields::le32(w, at)
}

// What item i weighs.
fn heft_of(w: &[u8], i: usize, depth: u32, code: u32) -> u32
    requires { (8 * i + 8 ≤ length w.now) × (depth < 65536) × (code < 65536) }
    ensures { (result ≡ heft w.now i depth code) × (result ≤ 65536) }
{
    let x = label(w, 8 * i);
    if x % 65536 < depth {
        return 65536;
    }
    if x == depth + 65536 * code {
        return 1;
    }
    0
}

// What the 64 items from i on weigh. Numbers of 32 bits, of which the compiler knows that depths have 16, make the shortest code.
pub fn weigh(w: &[u8], i: usize, depth: usize, code: usize) -> usize
    requires { (8 * i + 512 ≤ length w.now) × (depth < 65536) × (code < 65536) }
    ensures { (result ≡ weight 64 w.now i depth code) × (result ≤ 4194304) }
{
    let d = depth as u16 as u32;
    let c = code as u32;
    let mut sum: u32 = 0;
    let mut k = 0;
    // A `while`: the form of which the compiler was seen to make vector code.
    while k < 64 {
        sum += heft_of(w, i + k, d, c);
        k += 1;
    }
    sum as usize
}
