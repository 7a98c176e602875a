// One field of a modify, from `from` up to `to` of the update u, acts on the version in the workspace. Each function answers the version as it is then, or the
// fault at a tuple of the field.
ghost use Rattle.std.specs.Prelude.{◌≡◌, List, ℕ, ◌+◌, ◌*◌, ◌≤◌, length};
ghost use Rattle.skeleton.specs.Place.{between, fields_at};
ghost use Rattle.skeleton.specs.Shape.{Bounded};
ghost use Rattle.fields.specs.Valid.{Bytes};
ghost use Rattle.rules.specs.Tags.{ATTR, INAS, COCC, C2IT, SPAS};
ghost use Rattle.rules.specs.Coordinates.{Coord, place_in, sent};
ghost use Rattle.rules.specs.Written.{field_as};
ghost use Rattle.acting.specs.Ready.{Ready, Sending, Placing};
ghost use Rattle.acting.specs.Acted.{Holding, FieldActs, edit_at};

use base::Fault;
use cells::{inas, spas};
use coords::placing::place_tuples;
use coords::tuples::put_tuples;
use edits::edit_attr;
use fields::number::{le8, le16};
use rules::tags;
use skeleton::directory::Shape;
use version::Version;
use version::areas::list_of;

// An ATTR edits the tree.
fn act_attr(
    d: &[u8],
    u: &[u8],
    from: usize,
    to: usize,
    v: Version,
    work: &mut [u8],
) -> Result<Version, Fault>
    requires { Ready u.now work.old v ATTR from to × (length d.now ≤ 16777216) }
    ensures { (new : List Coord) → FieldActs d.now u.now new (field_as ATTR (between u.now from to)) work.old v work.new result }
{
    let attr = edit_attr(u, from, to, &mut work[0..200000], v.attr)?;
    let attrbytes = numbering::size(d, u, list_of(work), attr);
    Ok(Version {
        attr,
        attrbytes,
        ..v
    })
}

// An INAS joins the associations, or one leaves them.
fn act_inas(
    d: &[u8],
    u: &[u8],
    from: usize,
    to: usize,
    v: Version,
    work: &mut [u8],
) -> Result<Version, Fault>
    requires { Ready u.now work.old v INAS from to × Bytes u.now
        × Holding d.now u.now work.old v }
    ensures { (new : List Coord) → FieldActs d.now u.now new (field_as INAS (between u.now from to)) work.old v work.new result }
{
    let (inas, inasbytes) = inas::act_inas(
        d,
        u,
        from,
        to,
        &mut work[200000..292000],
        v.inas,
        v.inasbytes,
    )?;
    Ok(Version {
        inas,
        inasbytes,
        ..v
    })
}

// The tuples that the record `sender` sends go to a place among those of the version, else 9.
fn place_sent(
    sender: &[u8],
    h: Shape,
    instruction: usize,
    index: usize,
    count: usize,
    v: Version,
    work: &mut [u8],
) -> Result<Version, Fault>
    requires { Bounded h × Placing (fields_at sender.now h 24) index count work.old v }
    ensures { (d u b : List ℕ) → place_in b ≡ edit_at instruction index count → FieldActs d u (sent (fields_at sender.now h 24)) (field_as COCC b) work.old v work.new result }
{
    let Some(coord) = place_tuples(
        sender,
        h,
        instruction,
        index,
        count,
        &mut work[0..200000],
        v.coord,
    ) else {
        return Err(Fault {
            number: 9,
            field: 0,
            tuple: 0,
        });
    };
    Ok(Version { coord, ..v })
}

// A COCC: the tuples that the record u[at..at + len] sends go to the place that it names.
fn act_cocc(
    u: &[u8],
    at: usize,
    len: usize,
    h: Shape,
    from: usize,
    to: usize,
    v: Version,
    work: &mut [u8],
) -> Result<Version, Fault>
    requires { Ready u.now work.old v COCC from to × Sending u.now at len h × (8 * v.coord ≤ 99999) }
    ensures { (d : List ℕ) → FieldActs d u.now (sent (fields_at (between u.now at (at + len)) h 24)) (field_as COCC (between u.now from to)) work.old v work.new result }
{
    let b = &u[from..to];
    let instruction = le8(b, 0) as usize;
    let index = le16(b, 1) as usize;
    let count = le16(b, 3) as usize;
    let end = at + len;
    place_sent(&u[at..end], h, instruction, index, count, v, work)
}

// A C2IT replaces the tuple that a point has.
fn act_c2it(u: &[u8], from: usize, to: usize, v: Version, work: &mut [u8]) -> Result<Version, Fault>
    requires { Ready u.now work.old v C2IT from to }
    ensures { (d : List ℕ) (new : List Coord) → FieldActs d u.now new (field_as C2IT (between u.now from to)) work.old v work.new result }
{
    let coord = put_tuples(u, from, to, &mut work[0..200000], 0, 0);
    Ok(Version { coord, ..v })
}

// The tuples of a SPAS join the spatial associations, or some leave them.
fn act_spas(
    d: &[u8],
    u: &[u8],
    from: usize,
    to: usize,
    v: Version,
    work: &mut [u8],
) -> Result<Version, Fault>
    requires { Ready u.now work.old v SPAS from to × Bytes d.now × Bytes u.now
        × Holding d.now u.now work.old v }
    ensures { (new : List Coord) → FieldActs d.now u.now new (field_as SPAS (between u.now from to)) work.old v work.new result }
{
    let spas = spas::act_spas(d, u, from, to, &mut work[292000..386000], v.spas)?;
    Ok(Version { spas, ..v })
}

// A field of the record u[at..at + len] by its tag: ATTR, INAS, COCC, C2IT, SPAS.
pub fn act_field(
    d: &[u8],
    u: &[u8],
    at: usize,
    len: usize,
    h: Shape,
    tag: u32,
    from: usize,
    to: usize,
    v: Version,
    work: &mut [u8],
) -> Result<Version, Fault>
    requires { Ready u.now work.old v tag from to × Sending u.now at len h × Bytes d.now × Bytes u.now × (tag ≡ COCC → 8 * v.coord ≤ 99999)
        × Holding d.now u.now work.old v × (length d.now ≤ 16777216) }
    ensures { FieldActs d.now u.now (sent (fields_at (between u.now at (at + len)) h 24)) (field_as tag (between u.now from to)) work.old v work.new result }
{
    if tag == tags::ATTR {
        return act_attr(d, u, from, to, v, work);
    }
    if tag == tags::INAS {
        return act_inas(d, u, from, to, v, work);
    }
    if tag == tags::COCC {
        return act_cocc(u, at, len, h, from, to, v, work);
    }
    if tag == tags::C2IT {
        return act_c2it(u, from, to, v, work);
    }
    if tag == tags::SPAS {
        return act_spas(d, u, from, to, v, work);
    }
    Ok(v)
}
