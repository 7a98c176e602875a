// Storing zeroes.
ghost use Rattle.std.specs.Prelude.{◌≡◌, ◌+◌, ◌≤◌, length, take};
ghost use Rattle.memory.specs.Put.{put};
ghost use Rattle.memory.specs.Hold.{zeros, hold};

// n bytes of s are zero from index `at` on.
pub fn zero_part(s: &mut [u8], at: usize, n: usize)
    requires { at + n ≤ length s.old }
    ensures { s.new ≡ put at (zeros n) s.old }
{
    s[at..at + n].fill(0);
}

// All of s is zero from index `at` on.
pub fn zero_from(s: &mut [u8], at: usize)
    requires { at ≤ length s.old }
    ensures { s.new ≡ hold (length s.old) (take at s.old) }
{
    s[at..].fill(0);
}

// All of s is zero.
pub fn zero(s: &mut [u8])
    ensures { s.new ≡ zeros (length s.old) }
{
    s.fill(0);
}
