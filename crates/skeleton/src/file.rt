// The records of a file, one by one.
ghost use Rattle.std.specs.Prelude.{◌≡◌, ◌≤◌, length};
ghost use Rattle.skeleton.specs.Record.{record_at, stated_at};

use crate::directory::directory;
use crate::leader::{Broken, Head, leader, stated};

// The record that begins at at: what its leader says, once its directory is found right.
pub fn record_at(f: &[u8], at: usize) -> Result<Head, Broken>
    requires { at ≤ length f.now }
    ensures { result ≡ record_at f.now at }
{
    let rest = &f[at..];
    let head = leader(rest, at == 0)?;
    directory(&rest[..head.len], head.shape)?;
    Ok(head)
}

// What the leader at at says, with no test of its other bytes or of the directory: for a record that was found right before.
pub fn stated_at(f: &[u8], at: usize) -> Result<Head, Broken>
    requires { at ≤ length f.now }
    ensures { result ≡ stated_at f.now at }
{
    if f.len() - at < 24 {
        return Err(Broken::Cut);
    }
    stated(&f[at..])
}
