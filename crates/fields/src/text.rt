// Texts.
ghost use Rattle.std.specs.Prelude.{◌≡◌, ◌+◌, ◌≤◌, length, drop};
ghost use Rattle.fields.specs.Bytes.{run};

// The place of the first separator, 1E or 1F, from `at` on, or the end.
pub fn text_end(b: &[u8], at: usize) -> usize
    requires { at ≤ length b.now }
    ensures { result ≡ at + run (drop at b.now) }
{
    for i in at..b.len() {
        let x = b[i];
        if x == 30 || x == 31 {
            return i;
        }
    }
    b.len()
}
