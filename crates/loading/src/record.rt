// A record field by field.
ghost use Rattle.std.specs.Prelude.{◌≡◌, true, List, ℕ, ◌+◌, ◌≤◌, length, drop};
ghost use Rattle.skeleton.specs.Place.{between, fields_at};
ghost use Rattle.skeleton.specs.Leader.{good};
ghost use Rattle.skeleton.specs.Record.{record_at};
ghost use Rattle.skeleton.specs.Shape.{Bounded};
ghost use Rattle.rules.specs.Record.{ident_of, rec_of};
ghost use Rattle.contents.specs.Fit.{identified};
ghost use Rattle.stock.specs.Stored.{Loadable};
ghost use Rattle.items.specs.Items.{source};
ghost use Rattle.version.specs.Held.{Held};
ghost use Rattle.loading.specs.Loads.{LoadsAll, TookAll, opened};

use crate::part::load_field;
use contents::identifier;
use rules::Kind;
use skeleton::directory::Shape;
use skeleton::place::place_at;
use version::Version;

// What the identifier r[start..end] says, and nothing else.
fn open_version(r: &[u8], start: usize, end: usize, k: Kind) -> Version
    requires { (start ≤ end) × (end ≤ length r.now) × (identified k (between r.now start end) ≡ true) }
    ensures { result ≡ opened k (ident_of k (between r.now start end)) }
{
    Version {
        kind: k,
        rcid: identifier::rcid(r, start, end, k),
        code: identifier::code(r, start, end, k),
        rver: identifier::rver(r, start, end, k),
        foids: 0,
        foid: 0,
        slice: 0,
        attr: 0,
        inas: 0,
        coord: 0,
        spas: 0,
        attrbytes: 0,
        inasbytes: 0,
    }
}

// The fields of the record b[at..at + len] from the directory's entry at p on.
fn load_fields(
    b: &[u8],
    at: usize,
    len: usize,
    h: Shape,
    x: u8,
    p: usize,
    v: Version,
    work: &mut [u8],
) -> Version
    requires { Bounded h × LoadsAll b.now at len (fields_at (between b.now at (at + len)) h p) v work.old }
    ensures { TookAll b.now x (fields_at (between b.now at (at + len)) h p) work.old v work.new result }
{
    let mut q = p;
    let mut r = v;
    while let Some(field) = place_at(&b[at..at + len], h, q) {
        r = load_field(b, field.tag, at + field.start, at + field.end, x, r, work);
        q = field.next;
    }
    r
}

// The record b[at..at + len] of kind k; x names the slice b.
pub fn load_record(
    b: &[u8],
    at: usize,
    len: usize,
    h: Shape,
    x: u8,
    k: Kind,
    work: &mut [u8],
) -> Version
    requires { (record_at b.now at ≡ good len h) × (length b.now ≤ 16777216) × (400000 ≤ length work.old) × Loadable k (fields_at (between b.now at (at + len)) h 24) }
    ensures { ((d u : List ℕ) → source x d u ≡ b.now → Held d u work.new result (rec_of k (fields_at (between b.now at (at + len)) h 24)))
        × (drop 386000 work.new ≡ drop 386000 work.old) }
{
    let r = &b[at..at + len];
    let Some(ident) = place_at(r, h, 24) else {
        unreachable!();
    };
    let v = open_version(r, ident.start, ident.end, k);
    load_fields(b, at, len, h, x, ident.next, v, work)
}
