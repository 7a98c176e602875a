// The tree rule on the deepest and on the widest field that a record has room for: 12,499 tuples of 8 bytes, each the child of the one before
// it, or all of them siblings. Each kind is shown as it is right, and with its last index wrong; parents alone are right in both.
#![tactic(auto)]

ghost use Rattle.std.specs.Prelude.{◌+◌, ◌*◌, ◌≤◌, ◌<◌, length};

use std::io;
use std::io::Write;

// Tuple k, from 0: code 21, this index and parent, insert, no value.
fn put_tuple(b: &mut [u8], k: usize, index: usize, parent: usize)
    requires { (8 * k + 8 ≤ length b.old) × (index < 65536) × (parent < 65536) }
{
    let at = 8 * k;
    b[at] = 21;
    b[at + 1] = 0;
    b[at + 2] = (index % 256) as u8;
    b[at + 3] = (index / 256) as u8;
    b[at + 4] = (parent % 256) as u8;
    b[at + 5] = (parent / 256) as u8;
    b[at + 6] = 1;
    b[at + 7] = 31;
}

// n tuples, each the child of the one before it.
fn put_nested(b: &mut [u8], n: usize)
    requires { (8 * n ≤ length b.old) × (n < 65536) }
{
    for k in 0..n {
        put_tuple(b, k, 1, k);
    }
}

// n tuples, all of them siblings.
fn put_siblings(b: &mut [u8], n: usize)
    requires { (8 * n ≤ length b.old) × (n < 65536) }
{
    for k in 0..n {
        put_tuple(b, k, k + 1, 0);
    }
}

// What the whole rule says of a stored field, where number 5 has nothing to say.
fn tree_of(b: &[u8]) -> usize {
    match fields::tally_of(fields::Format::AttrNew, b) {
        Ok(_) => tree::attr_tree(b).err().unwrap_or(0),
        Err(_) => 65535,
    }
}

// What the test of a modify's field says, where number 5 has nothing to say.
fn acts_of(b: &[u8]) -> usize {
    match fields::tally_of(fields::Format::Attr, b) {
        Ok(_) => tree::attr_acts(b).err().unwrap_or(0),
        Err(_) => 65535,
    }
}

// A line for the first n bytes: what the field is, what the whole rule says of it, and what the test of parents says.
fn show<R: Print>(rt: &R, name: &[u8], b: &[u8], n: usize) -> io::Result<()>
    requires { n ≤ length b.now }
{
    let whole = tree_of(&b[..n]);
    let parents = acts_of(&b[..n]);
    io::writer(rt).write_all(name)?;
    println!(rt; "{whole} {parents}")?;
    Ok(())
}

fn main(rt: HostRuntime) -> io::Result<()> {
    let mut b = [0u8; 100000];
    put_nested(&mut b, 12499);
    show(&rt, b"nested ", &b, 99992)?;
    put_tuple(&mut b, 12498, 2, 12498);
    show(&rt, b"nested, last index wrong ", &b, 99992)?;
    put_siblings(&mut b, 12499);
    show(&rt, b"siblings ", &b, 99992)?;
    put_tuple(&mut b, 12498, 12498, 0);
    show(&rt, b"siblings, last index wrong ", &b, 99992)?;
    Ok(())
}
