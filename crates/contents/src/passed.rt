// What a walk over the fields of a record notices on its way.
ghost use Rattle.std.specs.Prelude.{◌≡◌, eqb};
ghost use Rattle.base.specs.Choice.{either};

// Whether a field with the wanted tag was passed, now that one with this tag is.
pub fn tag_passed(before: bool, tag: u32, wanted: u32) -> bool
    ensures { result ≡ either before (eqb tag wanted) }
{
    before || tag == wanted
}
