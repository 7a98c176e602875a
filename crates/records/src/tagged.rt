// A record's fields found by their tags.
ghost use Rattle.std.specs.Prelude.{◌≡◌};
ghost use Rattle.skeleton.specs.Place.{fields_at};
ghost use Rattle.skeleton.specs.RightFrom.{RightFrom};
ghost use Rattle.skeleton.specs.Shape.{Bounded};
ghost use Rattle.rules.specs.ByTag.{has};
ghost use Rattle.rules.specs.Grammar.{coui_byte};

use rules::tags;
use skeleton::directory::{Shape, tag_at};
use skeleton::place::find;

// Whether there is a field with the tag, from the entry at p on, in a directory that was found right: tags are read, and no numbers.
pub fn has_field(r: &[u8], h: Shape, wanted: u32, p: usize) -> bool
    requires { Bounded h × RightFrom r.now h p }
    ensures { result ≡ has wanted (fields_at r.now h p) }
{
    let mut q = p;
    while r[q] != 0x1e {
        if tag_at(r, q) == wanted {
            return true;
        }
        q += 4 + h.a + h.b;
    }
    false
}

// The first byte of COCC, COUI; 0 where there is none, as the rules' definition says.
pub fn coui_byte(r: &[u8], h: Shape, p: usize) -> u8
    requires { Bounded h }
    ensures { result ≡ coui_byte (fields_at r.now h p) }
{
    let Some(field) = find(r, h, tags::COCC, p) else {
        return 0;
    };
    if field.start < field.end {
        r[field.start]
    } else {
        0
    }
}
