// One record, number by number: 4, 5 and 6.
ghost use Rattle.std.specs.Prelude.{◌≡◌};
ghost use Rattle.base.specs.Verdict.{result_of};
ghost use Rattle.skeleton.specs.Place.{fields_at};
ghost use Rattle.skeleton.specs.RightFrom.{RightFrom};
ghost use Rattle.skeleton.specs.Shape.{Bounded};
ghost use Rattle.dataset.specs.Numbers.{four_to_six_in};

use base::Fault;
use contents::content::check_content_and_trees;
use records::grammar::check_tags;
use rules::{Kind, Mode};
use skeleton::directory::Shape;

// Numbers 4, 5 and 6 of a record whose directory was found right, and its kind; least is the rank of the last kind before it in the file.
pub fn four_to_six(r: &[u8], h: Shape, mode: Mode, least: usize) -> Result<Kind, Fault>
    requires { Bounded h × RightFrom r.now h 24 }
    ensures { result ≡ result_of (four_to_six_in mode least (fields_at r.now h 24)) }
{
    let k = check_tags(r, h, mode, least)?;
    check_content_and_trees(r, h, mode, k)?;
    Ok(k)
}
