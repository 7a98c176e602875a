// Number 8: DSNM and EDTN of the update are the dataset's, and its UPDN is one more.
ghost use Rattle.std.specs.Prelude.{◌≡◌, ◌≤◌, ◌<◌, Some};
ghost use Rattle.base.specs.Choice.{pick};
ghost use Rattle.base.specs.Check.{no, fault, pass};
ghost use Rattle.base.specs.Keys.{same};
ghost use Rattle.fields.specs.Table.{head_of};
ghost use Rattle.fields.specs.Values.{values, num_at, text_at};
ghost use Rattle.fields.specs.Places.{head_place};
ghost use Rattle.fields.specs.declared.Format.TheVariants.{Dsid};
ghost use Rattle.skeleton.specs.Place.{fields_at};
ghost use Rattle.skeleton.specs.Shape.{Bounded};
ghost use Rattle.rules.specs.General.{general_record, number8};
ghost use Rattle.rules.specs.declared.Mode.TheVariants.{InDataset, InUpdate};
ghost use Rattle.following.specs.Naming.{Identified, dsid_follows};

use fields::{Format, head_place, le16, text_end};
use skeleton::directory::Shape;
use skeleton::place::place_at;

// Whether two texts are the same.
pub fn same_bytes(a: &[u8], b: &[u8]) -> bool
    ensures { result ≡ same a.now b.now }
{
    a == b
}

// Where subfield j of the DSID b begins.
pub fn place_in(b: &[u8], j: usize) -> usize
    requires { Identified b.now × (j < 11) }
    ensures { Some result ≡ head_place (head_of Dsid) j b.now }
{
    head_place(Format::Dsid, j, b).unwrap_or(0)
}

// EDTN (8) or UPDN (9) of the DSID b.
pub fn number_in(b: &[u8], j: usize) -> u16
    requires { Identified b.now × (8 ≤ j) × (j ≤ 9) }
    ensures { result ≡ num_at (values (head_of Dsid) b.now) j }
{
    let p = place_in(b, j);
    le16(b, p)
}

// Whether DSNM of two DSIDs is the same.
fn same_names(a: &[u8], b: &[u8]) -> bool
    requires { Identified a.now × Identified b.now }
    ensures { result ≡ same (text_at (values (head_of Dsid) a.now) 7) (text_at (values (head_of Dsid) b.now) 7) }
{
    let p = place_in(a, 7);
    let q = place_in(b, 7);
    let m = text_end(a, p);
    let n = text_end(b, q);
    same_bytes(&a[p..m], &b[q..n])
}

// Whether the DSID b of an update follows the DSID a of a dataset.
fn dsid_follows(a: &[u8], b: &[u8]) -> bool
    requires { Identified a.now × Identified b.now }
    ensures { result ≡ dsid_follows a.now b.now }
{
    if !same_names(b, a) {
        return false;
    }
    if number_in(b, 8) != number_in(a, 8) {
        return false;
    }
    let old = usize::from(number_in(a, 9));
    let new = usize::from(number_in(b, 9));
    new == old + 1
}

// Number 8: whether the general record of an update follows that of a dataset.
pub fn follows(old: &[u8], ho: Shape, new: &[u8], hn: Shape) -> bool
    requires bounded { Bounded ho × Bounded hn }
    requires ho_value { (general_record InDataset (fields_at old.now ho 24) ≡ pass) × (general_record InUpdate (fields_at new.now hn 24) ≡ pass) }
    ensures { number8 (fields_at old.now ho 24) (fields_at new.now hn 24) ≡ pick result pass (no (fault 8 1 0)) }
{
    let Some(a) = place_at(old, ho, 24) else {
        return false;
    };
    let Some(b) = place_at(new, hn, 24) else {
        return false;
    };
    dsid_follows(&old[a.start..a.end], &new[b.start..b.end])
}
