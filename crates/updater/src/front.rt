// The first three records of the result: two of the dataset's, and the general record.
ghost use Rattle.std.specs.Prelude.{◌≡◌, true, false, ◌++◌, ◌+◌, ◌≤◌, length};
ghost use Rattle.base.specs.Check.{pass};
ghost use Rattle.memory.specs.Wrote.{Wrote};
ghost use Rattle.skeleton.specs.Emit.{emit};
ghost use Rattle.rules.specs.General.{general_record, merged};
ghost use Rattle.rules.specs.Written.{field_width, written_length};
ghost use Rattle.rules.specs.Update.{general as the_general};
ghost use Rattle.rules.specs.declared.Mode.TheVariants.{InDataset, InUpdate};
ghost use Rattle.updater.specs.Pieces.{There, Cut, Lies, fields_in};
ghost use Rattle.updater.specs.Told.{general_by};

use base::Fault;
use following::merging::{merged_length, write_merged};
use following::naming::follows;
use skeleton::directory::Shape;
use skeleton::file::record_at;
use writing::measuring::written_length;
use writing::writer::write_record;

// A record of a file: from where up to where it runs, and the shape of its directory.
#[derive(Clone, Copy)]
pub struct Piece {
    pub start: usize,
    pub end: usize,
    pub shape: Shape,
}

// The record at p, which was found right before.
pub fn found(f: &[u8], p: usize) -> Piece
    requires { (p ≤ length f.now) × There f.now p }
    ensures { Cut f.now p result }
{
    match record_at(f, p) {
        Ok(head) => Piece {
            start: p,
            end: p + head.len,
            shape: head.shape,
        },
        Err(_) => Piece {
            start: p,
            end: p,
            shape: Shape {
                base: 0,
                a: 0,
                b: 0,
            },
        },
    }
}

// How long the result's general record is, by the dataset's and the update's; or its refusal, number 8 or 12, with no field.
pub fn general(f: &[u8], old: Piece, u: &[u8], new: Piece) -> Result<usize, Fault>
    requires lies { Lies f.now old × Lies u.now new }
    requires passed { (general_record InDataset (fields_in f.now old) ≡ pass) × (general_record InUpdate (fields_in u.now new) ≡ pass) }
    ensures { result ≡ general_by (the_general (fields_in f.now old) (fields_in u.now new)) }
{
    let i = old.start;
    let j = old.end;
    let k = new.start;
    let l = new.end;
    if !follows(&f[i..j], old.shape, &u[k..l], new.shape) {
        return Err(Fault {
            number: 8,
            field: 0,
            tuple: 0,
        });
    }
    let n = merged_length(&f[i..j], old.shape, &u[k..l], new.shape);
    if 99999 < n {
        return Err(Fault {
            number: 12,
            field: 0,
            tuple: 0,
        });
    }
    Ok(n)
}

// How long the first three records are, where the general one has n bytes.
pub fn front_length(f: &[u8], first: Piece, n: usize, third: Piece) -> usize
    requires lies { Lies f.now first × Lies f.now third × (n ≤ 99999) }
    requires short { (written_length (fields_in f.now first) ≤ 99999) × (written_length (fields_in f.now third) ≤ 99999) }
    ensures { result ≡ written_length (fields_in f.now first) + (n + written_length (fields_in f.now third)) }
{
    let i = first.start;
    let j = first.end;
    let a = written_length(&f[i..j], first.shape, false);
    let k = third.start;
    let l = third.end;
    let c = written_length(&f[k..l], third.shape, false);
    a + (n + c)
}

// A record that is carried as it stands, from `at` on; the place behind it.
fn put_carried(f: &[u8], r: Piece, first: bool, out: &mut [u8], at: usize) -> usize
    requires { Lies f.now r × (at + written_length (fields_in f.now r) ≤ length out.old) }
    ensures { (result ≡ at + written_length (fields_in f.now r)) × Wrote at (emit field_width field_width first (fields_in f.now r)) out.old result out.new }
{
    let i = r.start;
    let j = r.end;
    write_record(&f[i..j], r.shape, false, first, out, at)
}

// The general record of the result, from `at` on; the place behind it.
fn put_general(f: &[u8], old: Piece, u: &[u8], new: Piece, out: &mut [u8], at: usize) -> usize
    requires lies { Lies f.now old × Lies u.now new }
    requires passed { (general_record InDataset (fields_in f.now old) ≡ pass) × (general_record InUpdate (fields_in u.now new) ≡ pass) }
    requires room { at + written_length (merged (fields_in f.now old) (fields_in u.now new)) ≤ length out.old }
    ensures { (result ≡ at + written_length (merged (fields_in f.now old) (fields_in u.now new))) × Wrote at (emit field_width field_width false (merged (fields_in f.now old) (fields_in u.now new))) out.old result out.new }
{
    let i = old.start;
    let j = old.end;
    let k = new.start;
    let l = new.end;
    write_merged(&f[i..j], old.shape, &u[k..l], new.shape, out, at)
}

// The first three records at the front of out; the place behind them.
pub fn put_front(
    f: &[u8],
    first: Piece,
    old: Piece,
    third: Piece,
    u: &[u8],
    new: Piece,
    out: &mut [u8],
) -> usize
    requires lies { Lies f.now first × Lies f.now old × Lies f.now third × Lies u.now new }
    requires passed { (general_record InDataset (fields_in f.now old) ≡ pass) × (general_record InUpdate (fields_in u.now new) ≡ pass) }
    requires room { written_length (fields_in f.now first) + (written_length (merged (fields_in f.now old) (fields_in u.now new)) + written_length (fields_in f.now third)) ≤ length out.old }
    ensures { Wrote 0 (emit field_width field_width true (fields_in f.now first) ++ (emit field_width field_width false (merged (fields_in f.now old) (fields_in u.now new)) ++ emit field_width field_width false (fields_in f.now third))) out.old result out.new }
{
    let p = put_carried(f, first, true, out, 0);
    let q = put_general(f, old, u, new, out, p);
    put_carried(f, third, false, out, q)
}
