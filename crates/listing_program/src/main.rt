// Prints the listing of standard input: one byte more than 65,536 is read, which shows that the input is too long.
#![tactic(auto)]

ghost use Rattle.std.specs.Prelude.{◌≡◌, ◌≤◌, length, IfOk};

use std::io;
use std::io::{Read, Write};

// Reads until the buffer is full or the input ends; how many bytes it read. A failed read leaves the buffer as long as it was.
fn read_full<I: Read>(input: &mut I, buf: &mut [u8]) -> io::Result<usize>
    ensures counted { IfOk result (λ n. n ≤ length buf.new) }
    ensures as_long { length buf.new ≡ length buf.old }
{
    let mut n = 0;
    while n < buf.len() {
        let k = input.read(&mut buf[n..])?;
        if k == 0 {
            return Ok(n);
        }
        n += k;
    }
    Ok(n)
}

fn main(rt: HostRuntime) -> io::Result<()> {
    let mut input = [0u8; 65537];
    let mut out = [0u8; 327736];
    let n = read_full(&mut rt.stdin(), &mut input)?;
    let m = listing::list(&input[..n], &mut out);
    rt.stdout().write_all(&out[..m])?;
    Ok(())
}
