// The fields of a record as they are written, one by one: lists joined, empty ones left out.
ghost use Rattle.std.specs.Prelude.{◌≡◌, ◌≤◌, length};
ghost use Rattle.skeleton.specs.Shape.{Bounded};
ghost use Rattle.writing.specs.House.{is_list};
ghost use Rattle.writing.specs.Runs.{empty_list, goes_on};
ghost use Rattle.writing.specs.Found.{Ran, Next};

use rules::tags;
use skeleton::directory::Shape;
use skeleton::place::place_at;

// How many bytes lists take over which one goes on, and the place of the entry behind them.
#[derive(Clone, Copy)]
pub struct Run {
    pub size: usize,
    pub after: usize,
}

// A field that is written: its tag, its first body, the size of its bodies together, the place from which on further bodies join it, and the
// place of the entry behind them.
#[derive(Clone, Copy)]
pub struct Written {
    pub tag: u32,
    pub start: usize,
    pub end: usize,
    pub size: usize,
    pub next: usize,
    pub after: usize,
}

// Whether fields with this tag, ATTR, SPAS or C2IL, are lists.
pub fn is_list(joins: bool, tag: u32) -> bool
    ensures { result ≡ is_list joins tag }
{
    joins && (tag == tags::ATTR || tag == tags::SPAS || tag == tags::C2IL)
}

// Whether a field of n bytes is an empty list.
fn is_empty_list(joins: bool, tag: u32, n: usize) -> bool
    ensures { result ≡ empty_list joins tag n }
{
    is_list(joins, tag) && n == 0
}

// Whether a list goes on over a field of n bytes.
pub fn goes_on(joins: bool, list: u32, tag: u32, n: usize) -> bool
    ensures { result ≡ goes_on joins list tag n }
{
    list == tag || is_empty_list(joins, tag, n)
}

// The bodies that join a field, from the entry at p on.
fn run_from(r: &[u8], h: Shape, joins: bool, list: u32, p: usize) -> Run
    requires { Bounded h × (length r.now ≤ 16777216) × (p ≤ length r.now) }
    ensures { Ran joins r.now h list p result }
{
    if !is_list(joins, list) {
        return Run { size: 0, after: p };
    }
    let mut q = p;
    let mut size = 0;
    while let Some(field) = place_at(r, h, q) {
        let n = field.end - field.start;
        if !goes_on(joins, list, field.tag, n) {
            return Run { size, after: q };
        }
        size += n;
        q = field.next;
    }
    Run { size, after: q }
}

// The first field that is written, from the entry at p on, if there is one.
pub fn next_written(r: &[u8], h: Shape, joins: bool, p: usize) -> Option<Written>
    requires { Bounded h × (length r.now ≤ 16777216) }
    ensures { Next joins r.now h p result }
{
    let mut q = p;
    while let Some(field) = place_at(r, h, q) {
        let n = field.end - field.start;
        if !is_empty_list(joins, field.tag, n) {
            let run = run_from(r, h, joins, field.tag, field.next);
            return Some(Written {
                tag: field.tag,
                start: field.start,
                end: field.end,
                size: n + run.size,
                next: field.next,
                after: run.after,
            });
        }
        q = field.next;
    }
    None
}
