// Flags as bits of bytes.
ghost use Rattle.std.specs.Prelude.{◌≡◌, ◌+◌, ◌/◌, ◌^◌, ◌<◌, length};
ghost use Rattle.keys.specs.Bits.{bit_of, flag_of, raised};

// Bit i of a byte.
fn bit(b: u8, i: usize) -> u8
    requires { i < 8 }
    ensures { result ≡ bit_of i b }
{
    (b >> i) % 2
}

// A byte with bit i set, which was not.
fn with_bit(b: u8, i: usize) -> u8
    requires { (i < 8) × (bit_of i b ≡ 0) }
    ensures { result ≡ b + 2 ^ i }
{
    b + (1 << i)
}

// Flag j.
pub fn flag(t: &[u8], j: usize) -> bool
    requires { j / 8 < length t.now }
    ensures { result ≡ flag_of t.now j }
{
    bit(t[j / 8], j % 8) == 1
}

// Raises flag j; where there is no such flag, nothing.
pub fn raise(t: &mut [u8], j: usize)
    ensures { t.new ≡ raised t.old j }
{
    let i = j / 8;
    if t.len() <= i {
        return;
    }
    let b = t[i];
    if bit(b, j % 8) == 1 {
        return;
    }
    t[i] = with_bit(b, j % 8);
}
