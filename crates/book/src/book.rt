// A book of keys, looked up by halves. What is found in it is certain; that it is in order only makes it likely to be found.
ghost use Rattle.std.specs.Prelude.{◌≡◌, ◌≤◌, ◌<◌, length};
ghost use Rattle.book.specs.Book.{bit_at, page_of};

// 1 where there is an entry at j that is not above the key, else 0.
fn bit(b: &[u64], key: u64, j: usize) -> usize
    ensures { (result ≡ bit_at b.now key j) × (result ≤ 1) }
{
    usize::from(j < b.len() && b[j] <= key)
}

// Where a key is looked for: the last entry that is not above it, where the entries ascend. The number of its place comes bit by bit, so that nothing is
// to be guessed when it runs.
pub fn page(b: &[u64], key: u64) -> usize
    requires { 0 < length b.now }
    ensures { (result ≡ page_of b.now key) × (result < length b.now) }
{
    let a = bit(b, key, 1024);
    let c = 2 * a + bit(b, key, 1024 * a + 512);
    let d = 2 * c + bit(b, key, 512 * c + 256);
    let e = 2 * d + bit(b, key, 256 * d + 128);
    let g = 2 * e + bit(b, key, 128 * e + 64);
    let h = 2 * g + bit(b, key, 64 * g + 32);
    let i = 2 * h + bit(b, key, 32 * h + 16);
    let l = 2 * i + bit(b, key, 16 * i + 8);
    let m = 2 * l + bit(b, key, 8 * l + 4);
    let n = 2 * m + bit(b, key, 4 * m + 2);
    let o = 2 * n + bit(b, key, 2 * n + 1);
    if o < b.len() {
        return o;
    }
    0
}
