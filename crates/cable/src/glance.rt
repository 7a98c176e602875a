// A glance at a file: where its DSID lies if its first two records are right, which is not asked here.
ghost use Rattle.std.specs.Prelude.{◌≡◌, ◌≤◌, length};
ghost use Rattle.skeleton.specs.Record.{stated_at};
ghost use Rattle.cable.specs.Glance.{second_by, glance_of};

use skeleton::file::stated_at;
use skeleton::place::place_at;

// The first field of the record that begins at p: from a place of the file up to another, or there is nothing to see.
fn second(f: &[u8], p: usize) -> Option<(usize, usize)>
    requires { p ≤ length f.now }
    ensures { result ≡ second_by f.now p (stated_at f.now p) }
{
    let Ok(head) = stated_at(f, p) else {
        return None;
    };
    if 9 < head.shape.a || 9 < head.shape.b {
        return None;
    }
    let e = p + head.len;
    let field = place_at(&f[p..e], head.shape, 24)?;
    Some((p + field.start, p + field.end))
}

// The first field of the second record.
pub fn glanced(f: &[u8]) -> Option<(usize, usize)>
    ensures { result ≡ glance_of f.now }
{
    match stated_at(f, 0) {
        Ok(head) => second(f, head.len),
        Err(_) => None,
    }
}
