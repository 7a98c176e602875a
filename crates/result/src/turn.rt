// One record of a side on the way to the result.
ghost use Rattle.std.specs.Prelude.{◌≡◌, ◌≤◌, ◌<◌, length};
ghost use Rattle.sequence.specs.Keyed.{Ordered};
ghost use Rattle.updates.specs.Acts.{chart};
ghost use Rattle.stock.specs.Stock.{stock_from};
ghost use Rattle.sorting.specs.Indices.{Spared};
ghost use Rattle.lasting.specs.Whole.{Whole};
ghost use Rattle.result.specs.Pass.{Within, Clear};
ghost use Rattle.result.specs.Side.{file_of, Stands, later_kind, Here, Put, Turned};

use crate::pass::{Progress, after};
use keys::look::key_at;
use lasting::Step;
use lasting::new::make_new;
use lasting::old::make_old;
use skeleton::directory::Shape;
use skeleton::file::stated_at;
use sorting::limits::{Limits, spare};

// Whether a record with this key ends the walk for the kind with place q: the old records stand kind by kind.
fn ends(old: bool, key: u64, q: u64) -> bool
    ensures { result ≡ later_kind old key q }
{
    old && q < key / 4294967296
}

// A record that the walk has come to: where it begins, its length and shape, and the number of its key.
#[derive(Clone, Copy)]
struct Found {
    at: usize,
    len: usize,
    shape: Shape,
    key: u64,
}

// What the record r of a side leaves, for the kind with place q.
fn make(
    old: bool,
    d: &[u8],
    ds: usize,
    t: &[u32],
    n: usize,
    map: &[u8],
    u: &[u8],
    us: usize,
    r: Found,
    q: u64,
    work: &mut [u8],
    out: &mut [u8],
    to: usize,
    lim: Limits,
) -> Step
    requires { Whole d.now ds t.now n map.now u.now us work.old × Here d.now ds u.now us old r.at r.len r.shape r.key × (to ≤ 4611686018427387904) × Spared d.now ds u.now us lim to out.old }
    ensures { Put d.now ds u.now us q old r.at r.len r.shape lim.sure to work.old out.old work.new out.new result }
{
    let p = r.at;
    let len = r.len;
    let h = r.shape;
    let k = r.key;
    let left = spare(lim, to, out.len());
    if old {
        return make_old(
            d, ds, t, n, map, u, us, p, len, h, k, q, work, out, to, left,
        );
    }
    make_new(
        d, ds, t, n, map, u, us, p, len, h, k, q, work, out, to, left,
    )
}

// The record where the walk over the file f is: what it leaves is put and counted, and the walk goes on behind it; it stands still where the side is over,
// and ends with the number of a result's record that has a loose reference (11).
pub fn turn(
    old: bool,
    f: &[u8],
    d: &[u8],
    ds: usize,
    t: &[u32],
    n: usize,
    map: &[u8],
    u: &[u8],
    us: usize,
    q: u64,
    work: &mut [u8],
    out: &mut [u8],
    g: Progress,
    lim: Limits,
) -> Result<Progress, usize>
    requires whole { Whole d.now ds t.now n map.now u.now us work.old × Ordered chart 1 (stock_from d.now ds) × Within 4294967296 g }
    requires side { (f.now ≡ file_of old d.now u.now) × Stands d.now ds u.now us q old g.next × (g.next < length f.now) × Spared d.now ds u.now us lim g.to out.old × Clear d.now ds u.now us lim }
    ensures { Turned d.now ds u.now us q old g work.old out.old work.new out.new result }
{
    let p = g.next;
    let Ok(head) = stated_at(f, p) else {
        return Ok(g);
    };
    let k = key_at(f, p + head.shape.base);
    if ends(old, k, q) {
        return Ok(g);
    }
    let r = Found {
        at: p,
        len: head.len,
        shape: head.shape,
        key: k,
    };
    let s = make(old, d, ds, t, n, map, u, us, r, q, work, out, g.to, lim);
    after(s, g, p + head.len)
}
