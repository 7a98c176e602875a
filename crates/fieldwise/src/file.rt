// The field of a number in the record of a number of a file, both from 1.
ghost use Rattle.std.specs.Prelude.{◌≡◌, ◌≤◌, length};
ghost use Rattle.fieldwise.specs.InFile.{field_within, field_in_file};

use crate::numbered::{Found, field_at};
use skeleton::file::record_at;

// The n-th field of the record that lies from start up to end of a file, with its places in the file.
fn field_within(file: &[u8], start: usize, end: usize, n: usize) -> Option<Found>
    requires { (start ≤ end) × (end ≤ length file.now) }
    ensures { result ≡ field_within file.now start end n }
{
    let field = field_at(&file[start..end], n)?;
    Some(Found {
        tag: field.tag,
        start: start + field.start,
        end: start + field.end,
    })
}

// The n-th field of the m-th record, with its places in the file; none where a record up to it is not right or there are fewer.
pub fn field_of_record(file: &[u8], m: usize, n: usize) -> Option<Found>
    ensures { result ≡ field_in_file file.now m n }
{
    let mut at = 0;
    for passed in 0..m {
        if file.len() <= at {
            return None;
        }
        let Ok(record) = record_at(file, at) else {
            return None;
        };
        let end = at + record.len;
        if passed + 1 == m {
            return field_within(file, at, end, n);
        }
        at = end;
    }
    None
}
