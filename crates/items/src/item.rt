// One item read or stored.
ghost use Rattle.std.specs.Prelude.{◌≡◌, ◌+◌, ◌*◌, ◌≤◌, ◌<◌, length};
ghost use Rattle.memory.specs.Put.{put};
ghost use Rattle.items.specs.Items.{u16, ref_bytes, item_bytes, under, twin_at};

// The number of the two bytes at an index.
pub fn number(w: &[u8], at: usize) -> usize
    requires { at + 2 ≤ length w.now }
    ensures { (result ≡ u16 w.now at) × (result < 65536) }
{
    fields::le16(w, at) as usize
}

// 1 where item i has this depth and code, else 0.
pub fn twin(w: &[u8], i: usize, depth: usize, code: usize) -> usize
    requires { 8 * i + 8 ≤ length w.now }
    ensures { (result ≡ twin_at w.now i depth code) × (result ≤ 1) }
{
    usize::from(number(w, 8 * i) == depth && number(w, 8 * i + 2) == code)
}

// The depth below place p.
pub fn depth_under(w: &[u8], p: usize) -> usize
    requires { 8 * p ≤ length w.now }
    ensures { result ≡ under w.now p }
{
    if p == 0 {
        return 0;
    }
    number(w, 8 * (p - 1)) + 1
}

// Stores where a value stands.
pub fn put_ref(w: &mut [u8], at: usize, o: usize, x: u8)
    requires { at + 4 ≤ length w.old }
    ensures { w.new ≡ put at (ref_bytes o x) w.old }
{
    w[at] = (o % 256) as u8;
    w[at + 1] = (o / 256 % 256) as u8;
    w[at + 2] = (o / 65536 % 256) as u8;
    w[at + 3] = x;
}

// Stores item i.
pub fn put_item(w: &mut [u8], i: usize, depth: usize, code: usize, o: usize, x: u8)
    requires { 8 * i + 8 ≤ length w.old }
    ensures { w.new ≡ put (8 * i) (item_bytes depth code o x) w.old }
{
    let at = 8 * i;
    w[at] = (depth % 256) as u8;
    w[at + 1] = (depth / 256 % 256) as u8;
    w[at + 2] = (code % 256) as u8;
    w[at + 3] = (code / 256 % 256) as u8;
    put_ref(w, at + 4, o, x);
}
