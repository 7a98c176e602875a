// A display tells its holding.
ghost use Rattle.std.specs.Prelude.{◌≡◌, ◌+◌, ◌-◌, ◌^◌, ◌≤◌, ◌<◌, length};
ghost use Rattle.memory.specs.Wrote.{Wrote};
ghost use Rattle.following.specs.Naming.{Identified};
ghost use Rattle.cable.specs.Naming.{holding_of, name_at, TellsAs};
ghost use Rattle.cable.specs.Promise.{Tells};

use crate::front::dsid_in;
use fields::text_end;
use following::naming::{number_in, place_in};
use memory::clearing::zero;
use memory::writing::{put_little_endian, put_part};
use rules::{Answer, Mode};

// The holding of the DSID b, whose DSNM runs from p up to e.
fn put_holding(b: &[u8], p: usize, e: usize, out: &mut [u8]) -> usize
    requires { Identified b.now × name_at b.now p e × (10 + (e - p) ≤ length out.old) }
    ensures { Wrote 0 (holding_of b.now) out.old result out.new }
{
    let edition = number_in(b, 8) as usize;
    let number = number_in(b, 9) as usize;
    let i = put_little_endian(out, 0, 4, 10 + (e - p));
    let j = put_little_endian(out, i, 2, 1);
    let k = put_little_endian(out, j, 2, edition);
    let l = put_little_endian(out, k, 2, number);
    put_part(out, l, b, p, e - p)
}

// The holding of the DSID b in an output slice, or 13.
fn tell_dsid(b: &[u8], out: &mut [u8]) -> Answer
    requires { Identified b.now × (length b.now < 10 ^ 9) }
    ensures { TellsAs (holding_of b.now) (length out.old) result out.new }
{
    let p = place_in(b, 7);
    let e = text_end(b, p);
    zero(out);
    if out.len() < 10 + (e - p) {
        return Answer::refused(13, 3, 0);
    }
    let n = put_holding(b, p, e, out);
    Answer::done(n, 0)
}

// The holding of a chart.
pub fn tell(chart: &[u8], out: &mut [u8]) -> Answer
    ensures { Tells chart.now (length out.old) result out.new }
{
    match dsid_in(chart, Mode::InDataset) {
        Ok((i, j)) => tell_dsid(&chart[i..j], out),
        Err(refusal) => {
            zero(out);
            Answer::refused(refusal.fault.number, 1, refusal.rec)
        }
    }
}
