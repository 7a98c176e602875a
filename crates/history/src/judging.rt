// The verdicts on an update's records. Each is judged by the history of the key that it names, and each key's history is followed once, when the first
// record that names it is met.
ghost use Rattle.std.specs.Prelude.{◌≡◌, false, not, ◌≤◌, length};
ghost use Rattle.keys.specs.Listed.{listed};
ghost use Rattle.keys.specs.Look.{Sound};
ghost use Rattle.keys.specs.Table.{Laid};
ghost use Rattle.keys.specs.Places.{Leads};
ghost use Rattle.sorting.specs.Places.{Indexed};
ghost use Rattle.sorting.specs.Indices.{Indices};
ghost use Rattle.version.specs.Areas.{flag_area};
ghost use Rattle.version.specs.Present.{FlagsKept};
ghost use Rattle.history.specs.Flags.{Flags};
ghost use Rattle.history.specs.Ready.{Ready};
ghost use Rattle.history.specs.Judged.{keys_up_to, Naming, Through, Followed, earlier_of, Judging, AllJudged};

use crate::finding::{load_at, locate};
use crate::flags::{flagged, lower, mark};
use crate::playing::{Course, follow};
use base::{Fault, Refusal};
use keys::look::look_at;
use sorting::index::next;
use sorting::limits::{Limits, new_index};

// The place of an update record that is refused, and why; the update's end where none is.
#[derive(Clone, Copy)]
pub struct Stop {
    pub at: usize,
    pub fault: Fault,
}

// Whether no update record before the one at q, which names the key, names it too.
fn is_first(u: &[u8], us: usize, q: usize, key: u64, index: &[u8], work: &[u8]) -> bool
    requires { Sound u.now us × Leads u.now us q × Indexed u.now us index.now × (400000 ≤ length work.now) × Flags (keys_up_to u.now us q) (flag_area work.now) }
    ensures { result ≡ not (listed key (keys_up_to u.now us q)) }
{
    !flagged(work, key) || q <= next(u, us, index, us, key)
}

// The course of the key that the update record at q is the first to name.
fn course(
    d: &[u8],
    ds: usize,
    t: &[u32],
    n: usize,
    map: &[u8],
    u: &[u8],
    us: usize,
    out: &[u8],
    lim: Limits,
    q: usize,
    key: u64,
    work: &mut [u8],
) -> Course
    requires ready { Ready d.now ds u.now us × Laid d.now ds t.now n map.now × Indices d.now ds u.now us lim out.now × (400000 ≤ length work.old) }
    requires leads { Leads u.now us q × Naming u.now q key × (listed key (keys_up_to u.now us q) ≡ false) }
    ensures { Followed d.now ds u.now us q key work.old work.new result }
{
    let index = new_index(out, lim);
    if let Some(at) = locate(d, ds, t, n, map, out, lim, key) {
        let p = load_at(d, at, work);
        follow(d, u, us, index, q, key, p, work)
    } else {
        follow(d, u, us, index, q, key, None, work)
    }
}

// The first of two refusals: of one that a course may have ended with, and of another.
fn earlier(c: Course, s: Stop) -> Stop
    ensures { result ≡ earlier_of c s }
{
    match c.left {
        Err(fault) if c.at < s.at => Stop { at: c.at, fault },
        _ => s,
    }
}

// The first refusal in the histories of the keys so far, s, and of the key that the update record at q names.
fn first_stop(
    d: &[u8],
    ds: usize,
    t: &[u32],
    n: usize,
    map: &[u8],
    u: &[u8],
    us: usize,
    out: &[u8],
    lim: Limits,
    q: usize,
    key: u64,
    s: Stop,
    work: &mut [u8],
) -> Stop
    requires ready { Ready d.now ds u.now us × Laid d.now ds t.now n map.now × Indices d.now ds u.now us lim out.now × (400000 ≤ length work.old) }
    requires leads { Leads u.now us q × Naming u.now q key × Flags (keys_up_to u.now us q) (flag_area work.old) × Judging d.now ds u.now us q s }
    ensures { Judging d.now ds u.now us q result × Through d.now ds u.now us result.at key × FlagsKept work.old work.new }
{
    if !is_first(u, us, q, key, new_index(out, lim), work) {
        return s;
    }
    let c = course(d, ds, t, n, map, u, us, out, lim, q, key, work);
    earlier(c, s)
}

// All of them, from us on, of which the first has number 3: the first refusal, if there is one.
pub fn judge(
    d: &[u8],
    ds: usize,
    t: &[u32],
    n: usize,
    map: &[u8],
    u: &[u8],
    us: usize,
    out: &[u8],
    lim: Limits,
    work: &mut [u8],
) -> Result<(), Refusal>
    requires { Ready d.now ds u.now us × Laid d.now ds t.now n map.now × (400000 ≤ length work.old) × Indices d.now ds u.now us lim out.now }
    ensures { AllJudged d.now ds u.now us work.new result }
{
    lower(work);
    let mut q = us;
    let mut j = 0;
    let mut s = Stop {
        at: u.len(),
        fault: Fault {
            number: 0,
            field: 0,
            tuple: 0,
        },
    };
    while q < u.len() {
        let Some(look) = look_at(u, q) else {
            return Ok(());
        };
        s = first_stop(d, ds, t, n, map, u, us, out, lim, q, look.key, s, work);
        if s.at == q {
            return Err(Refusal {
                rec: j + 3,
                fault: s.fault,
            });
        }
        mark(work, look.key);
        q += look.len;
        j += 1;
    }
    Ok(())
}
