// The writer: it puts a dataset into its written form.
#![tactic(auto)]

ghost use Rattle.std.specs.Prelude.{◌≡◌, true, ◌≤◌, length};
ghost use Rattle.memory.specs.Hold.{zeros};
ghost use Rattle.memory.specs.Wrote.{Wrote};
ghost use Rattle.skeleton.specs.Emit.{emits};
ghost use Rattle.rules.specs.Written.{field_width};
ghost use Rattle.promises.specs.Promise.{Writes};
ghost use Rattle.writer.specs.Forms.{forms_from, lengths};
ghost use Rattle.writer.specs.Measured.{said_by, measured_from};
ghost use Rattle.writer.specs.Ready.{Ready};

use memory::clearing::{zero, zero_from};
use reader::read;
use rules::Answer;
use skeleton::file::record_at;
use writing::measuring::written_length;
use writing::writer::write_record;

// The length of a file's written form, record by record; or the number of the first record that is too long then (12). The lists of the first
// three records are not joined.
pub fn measure(f: &[u8]) -> Result<usize, usize>
    requires { length f.now ≤ 16777216 }
    ensures { said_by result ≡ measured_from 1 0 (forms_from f.now 0 1) }
{
    let mut p = 0;
    let mut n = 1;
    let mut total = 0;
    while let Ok(head) = record_at(f, p) {
        let e = p + head.len;
        let size = written_length(&f[p..e], head.shape, 3 < n);
        if 99999 < size {
            return Err(n);
        }
        total += size;
        n += 1;
        p = e;
    }
    Ok(total)
}

// The written form of a file at the front of out, for which there is room; the place behind it.
fn put_records(f: &[u8], out: &mut [u8]) -> usize
    requires { (length f.now ≤ 16777216) × (lengths (forms_from f.now 0 1) ≤ length out.old) }
    ensures { Wrote 0 (emits field_width field_width true (forms_from f.now 0 1)) out.old result out.new }
{
    let mut p = 0;
    let mut n: usize = 1;
    let mut q = 0;
    while let Ok(head) = record_at(f, p) {
        let e = p + head.len;
        q = write_record(&f[p..e], head.shape, 3 < n, n == 1, out, q);
        n += 1;
        p = e;
    }
    q
}

// A refusal: the output is wholly zero.
fn refuse(number: u8, file: u8, rec: usize, out: &mut [u8]) -> Answer
    ensures { (result ≡ record { number = number; file = file; rec = rec; length = 0; count = 0 }) × (out.new ≡ zeros (length out.old)) }
{
    zero(out);
    Answer::refused(number, file, rec)
}

// A file whose written form has so many bytes and records: numbers 14 and 13, then the written form and zeroes behind it.
fn put_out(f: &[u8], size: usize, records: usize, out: &mut [u8]) -> Answer
    requires { (length f.now ≤ 16777216) × Ready f.now size records }
    ensures { Writes f.now (length out.old) result out.new }
{
    if 16777216 < size {
        return refuse(14, 3, 0, out);
    }
    if out.len() < size {
        return refuse(13, 3, 0, out);
    }
    let end = put_records(f, out);
    zero_from(out, end);
    Answer::done(end, records)
}

// Writes a dataset: the answer and every byte of the output are those of the rules, for any bytes and an output of any length.
pub fn write(dataset: &[u8], out: &mut [u8]) -> Answer
    ensures { Writes dataset.now (length out.old) result out.new }
{
    let a = read(dataset);
    if a.number != 0 {
        return refuse(a.number, a.file, a.rec, out);
    }
    match measure(dataset) {
        Ok(size) => put_out(dataset, size, a.count, out),
        Err(n) => refuse(12, 1, n, out),
    }
}
