// The files of a list, applied one by one.
ghost use Rattle.std.specs.Prelude.{◌≡◌, false, ◌+◌, ◌<◌};
ghost use Rattle.base.specs.Choice.{pick};
ghost use Rattle.base.specs.Check.{fault};
ghost use Rattle.rules.specs.Answers.{refusal, success};
ghost use Rattle.month.specs.Month.{month_of};
ghost use Rattle.month.specs.Run.{Ran};

use crate::files::next_file;
use display::{Chart, Shown, hand_tested};
use rules::Answer;

// What a month comes to: the last answer, how many files were applied, and where the chart stands: in the second pool or in the first, and its
// length there.
#[derive(Clone, Copy)]
pub struct Month {
    pub answer: Answer,
    pub applied: usize,
    pub second: bool,
    pub length: usize,
}

// An answer with a number and a file alone.
fn plain(number: u8, file: u8) -> Answer
    ensures { result ≡ refusal file 0 (fault number 0 0) }
{
    Answer::refused(number, file, 0)
}

// Before the first file: the chart stands in the first pool.
fn begun(length: usize) -> Month
    ensures { result ≡ record { answer = success 0 0; applied = 0; second = false; length = length } }
{
    Month {
        answer: plain(0, 0),
        applied: 0,
        second: false,
        length,
    }
}

// A file was refused.
fn stopped(m: Month, answer: Answer) -> Month
    ensures { result ≡ record { answer = answer; applied = m.applied; second = m.second; length = m.length } }
{
    Month { answer, ..m }
}

// A file was applied.
fn applied(m: Month, r: Shown) -> Month
    requires { m.applied < 9223372036854775808 }
    ensures { result ≡ record { answer = r.answer; applied = m.applied + 1; second = r.chart.second; length = r.chart.length } }
{
    Month {
        answer: r.answer,
        applied: m.applied + 1,
        second: r.chart.second,
        length: r.chart.length,
    }
}

// The length of the pool that holds the chart.
fn pool_length(in_second: bool, first: usize, second: usize) -> usize
    ensures { result ≡ pick in_second second first }
{
    if in_second { second } else { first }
}

// All files of a list up to the first that is refused. The pool without the chart may hold anything then.
pub fn run(
    list: &[u8],
    first: &mut [u8],
    length: usize,
    second: &mut [u8],
    work: &mut [u8],
) -> Month
    ensures { Ran (month_of list.now first.old length second.old work.old) result first.new second.new }
{
    let mut m = begun(length);
    if work.len() < 400000 {
        return stopped(m, plain(15, 0));
    }
    let mut at = 0;
    while at < list.len() {
        let Some(file) = next_file(list, at) else {
            return stopped(m, plain(1, 2));
        };
        if pool_length(m.second, first.len(), second.len()) < m.length {
            return stopped(m, plain(1, 1));
        }
        let chart = Chart {
            second: m.second,
            length: m.length,
        };
        // What this call wrote itself has passed its tests.
        let own = 0 < m.applied;
        let r = hand_tested(own, chart, first, second, &list[file.start..file.end], work);
        if r.answer.number != 0 {
            return stopped(m, r.answer);
        }
        m = applied(m, r);
        at = file.end;
    }
    m
}
