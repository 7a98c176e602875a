// One field of a stored record, from `from` up to `to` of b, the slice that x names, is added to the version in the workspace.
ghost use Rattle.std.specs.Prelude.{◌≡◌, true, ℕ};
ghost use Rattle.skeleton.specs.Place.{between};
ghost use Rattle.rules.specs.Tags.{ATTR, INAS, SPAS};
ghost use Rattle.rules.specs.Written.{field_as};
ghost use Rattle.rules.specs.Coordinates.{is_coordinates};
ghost use Rattle.loading.specs.Loads.{Loads, LoadsCoords, Took};

use rules::tags;
use version::Version;

// The tree of an ATTR. A stored one has the bytes that its tree is written in.
fn load_attr(b: &[u8], from: usize, to: usize, x: u8, v: Version, work: &mut [u8]) -> Version
    requires { Loads b.now ATTR from to v work.old }
    ensures { Took b.now x (field_as ATTR (between b.now from to)) work.old v work.new result }
{
    let attr = items::loading::load(b, from, to, x, &mut work[0..200000]);
    Version {
        attr,
        attrbytes: to - from,
        ..v
    }
}

// An INAS.
fn load_inas(b: &[u8], from: usize, to: usize, x: u8, v: Version, work: &mut [u8]) -> Version
    requires { Loads b.now INAS from to v work.old }
    ensures { Took b.now x (field_as INAS (between b.now from to)) work.old v work.new result }
{
    let inas = cells::inas::load_inas(from, to, x, &mut work[200000..292000], v.inas);
    Version {
        inas,
        inasbytes: v.inasbytes + (to - from) + 1,
        ..v
    }
}

// The tuples of a C2IT or of a C2IL.
fn load_coords(b: &[u8], from: usize, to: usize, v: Version, work: &mut [u8]) -> Version
    requires { LoadsCoords b.now from to v work.old }
    ensures { (x t : ℕ) → is_coordinates t ≡ true → Took b.now x (field_as t (between b.now from to)) work.old v work.new result }
{
    let coord = coords::tuples::put_tuples(b, from, to, &mut work[0..200000], v.coord, v.coord);
    Version { coord, ..v }
}

// The tuples of a SPAS.
fn load_spas(b: &[u8], from: usize, to: usize, x: u8, v: Version, work: &mut [u8]) -> Version
    requires { Loads b.now SPAS from to v work.old }
    ensures { Took b.now x (field_as SPAS (between b.now from to)) work.old v work.new result }
{
    let spas = cells::spas::load_spas(from, to, x, &mut work[292000..386000], v.spas);
    Version { spas, ..v }
}

// A field by its tag: FOID, ATTR, INAS, SPAS, C2IT, C2IL.
pub fn load_field(
    b: &[u8],
    tag: u32,
    from: usize,
    to: usize,
    x: u8,
    v: Version,
    work: &mut [u8],
) -> Version
    requires { Loads b.now tag from to v work.old }
    ensures { Took b.now x (field_as tag (between b.now from to)) work.old v work.new result }
{
    if tag == tags::FOID {
        return Version {
            foids: 1,
            foid: from,
            slice: x,
            ..v
        };
    }
    if tag == tags::ATTR {
        return load_attr(b, from, to, x, v, work);
    }
    if tag == tags::INAS {
        return load_inas(b, from, to, x, v, work);
    }
    if tag == tags::SPAS {
        return load_spas(b, from, to, x, v, work);
    }
    if tag == tags::C2IT {
        return load_coords(b, from, to, v, work);
    }
    if tag == tags::C2IL {
        return load_coords(b, from, to, v, work);
    }
    v
}
