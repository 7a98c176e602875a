// The reader: it checks a dataset and says how many records it has.
#![tactic(auto)]

ghost use Rattle.std.specs.Prelude.{◌≡◌, ◌≤◌, length, MatchResult};
ghost use Rattle.rules.specs.Outcome.{done};
ghost use Rattle.rules.specs.Answers.{read as the_answer};
ghost use Rattle.promises.specs.Promise.{Reads};
ghost use Rattle.opening.specs.Carried.{first_three};
ghost use Rattle.reader.specs.Answered.{counted, refused};

use base::Refusal;
use dataset::walk::later_records;
use opening::carried::first_three;
use references::dataset::loose;
use rules::Answer;

// How many records a dataset has, whose records behind the third begin at start, or the first refusal: numbers 1 to 7 of each of these records, and then the
// references between them.
fn after_three(f: &[u8], start: usize) -> Result<usize, Refusal>
    requires { (length f.now ≤ 16777216) × (first_three f.now ≡ done start) }
    ensures { MatchResult result (λ n. counted n ≡ the_answer f.now) (λ x. refused x ≡ the_answer f.now) }
{
    let mut map = [0u8; 32769];
    let m = later_records(f, start, &mut map)?;
    loose(f, start, &mut map)?;
    Ok(m + 3)
}

// The same of all its records.
fn all_records(f: &[u8]) -> Result<usize, Refusal>
    requires { length f.now ≤ 16777216 }
    ensures { MatchResult result (λ n. counted n ≡ the_answer f.now) (λ x. refused x ≡ the_answer f.now) }
{
    let start = first_three(f)?;
    after_three(f, start)
}

// Reads a dataset: the answer is that of the rules, for any bytes.
pub fn read(f: &[u8]) -> Answer
    ensures { Reads f.now result }
{
    if 16777216 < f.len() {
        return Answer::refused(14, 1, 0);
    }
    match all_records(f) {
        Ok(count) => Answer::done(0, count),
        Err(refusal) => Answer::refused(refusal.fault.number, 1, refusal.rec),
    }
}
