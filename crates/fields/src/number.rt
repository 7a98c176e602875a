// Numbers, the lowest byte first.
ghost use Rattle.std.specs.Prelude.{◌≡◌, ◌+◌, ◌≤◌, length, drop};
ghost use Rattle.fields.specs.Bytes.{le, signed32};

// A number of 1 byte.
pub fn le8(b: &[u8], at: usize) -> u8
    requires { at + 1 ≤ length b.now }
    ensures { result ≡ le 1 (drop at b.now) }
{
    b[at]
}

// A number of 2 bytes.
pub fn le16(b: &[u8], at: usize) -> u16
    requires { at + 2 ≤ length b.now }
    ensures { result ≡ le 2 (drop at b.now) }
{
    u16::from_le_bytes([b[at], b[at + 1]])
}

// A number of 4 bytes.
pub fn le32(b: &[u8], at: usize) -> u32
    requires { at + 4 ≤ length b.now }
    ensures { result ≡ le 4 (drop at b.now) }
{
    u32::from_le_bytes([b[at], b[at + 1], b[at + 2], b[at + 3]])
}

// A coordinate: the number that 32 bits are with a sign.
pub fn signed(v: u32) -> i32
    ensures { result ≡ signed32 v }
{
    v.cast_signed()
}
