// The field of a number in a record: the one function above the reader whose parameters are plain.
ghost use Rattle.std.specs.Prelude.{◌≡◌};
ghost use Rattle.fieldwise.specs.Numbered.{field_numbered};

use crate::reader::{here, next, start};

// A field: its tag, where its body starts and where its closing 1E stands.
#[derive(Clone, Copy)]
pub struct Found {
    pub tag: u32,
    pub start: usize,
    pub end: usize,
}

// The n-th field of a record, from 1, if it has that many.
pub fn field_at(rec: &[u8], n: usize) -> Option<Found>
    ensures { result ≡ field_numbered rec.now n }
{
    if n == 0 {
        return None;
    }
    let mut reader = start(rec);
    for _ in 1..n {
        here(reader)?;
        reader = next(reader);
    }
    let field = here(reader)?;
    Some(Found {
        tag: field.tag,
        start: field.start,
        end: field.end,
    })
}
