// What other languages link: the entry points over numbers and byte slices. Each that refuses says its answer in two ways: the refusal's number, 0 for
// done, is the result, and the five numbers stand in a lent slice.
#![tactic(auto)]

ghost use Rattle.std.specs.Prelude.{◌≡◌, length};
ghost use Rattle.base.specs.Choice.{pick};
ghost use Rattle.listing.specs.Lists.{Lists};
ghost use Rattle.console.specs.Numbered.{numbered, three_of, Says};
ghost use Rattle.console.specs.Files.{SaysRead, SaysWrite, SaysUpdate};
ghost use Rattle.console.specs.Shown.{charted, SaysShown, SaysBegin, SaysHand};
ghost use Rattle.console.specs.Monthly.{SaysMonth};
ghost use Rattle.console.specs.Cabled.{reply_numbers, SaysReply, SaysTell, SaysTake};
ghost use Rattle.console.specs.Field.{SaysField};

use cable::shelf::{answer_of, reply};
use cable::taking::take;
use cable::telling::tell;
use display::{Chart, Shown, begin, hand};
use fieldwise::file::field_of_record;
use month::month;
use parcels::Reply;
use reader::read;
use rules::Answer;
use updater::update;
use writer::write;

// ---- answers in lent slices

// The answer's five numbers go into the first five places of `answer`: number, file, record, length, count. A shorter slice is left as it is.
fn put_answer(a: Answer, answer: &mut [u64])
    ensures { answer.new ≡ numbered a answer.old }
{
    if answer.len() < 5 {
        return;
    }
    answer[0] = a.number as u64;
    answer[1] = a.file as u64;
    answer[2] = a.rec as u64;
    answer[3] = a.length as u64;
    answer[4] = a.count as u64;
}

// Says an answer: its numbers in the slice, and as the result the refusal's number, 0 for done.
fn say(a: Answer, answer: &mut [u64]) -> usize
    ensures { Says a answer.old result answer.new }
{
    put_answer(a, answer);
    a.number as usize
}

// Three numbers go into the first three places of `out`. A shorter slice is left as it is.
fn put_three(a: usize, b: usize, c: usize, out: &mut [u64])
    ensures { out.new ≡ three_of a b c out.old }
{
    if out.len() < 3 {
        return;
    }
    out[0] = a as u64;
    out[1] = b as u64;
    out[2] = c as u64;
}

// The place of a pool.
fn place_of(second: bool) -> usize
    ensures { result ≡ pick second 1 0 }
{
    if second { 1 } else { 0 }
}

// The place of a chart and its length there go into the first two places of `out`. A shorter slice is left as it is.
fn put_chart(c: Chart, out: &mut [u64])
    ensures { out.new ≡ charted c out.old }
{
    if out.len() < 2 {
        return;
    }
    out[0] = place_of(c.second) as u64;
    out[1] = c.length as u64;
}

// Says what a display shows.
fn say_shown(r: Shown, answer: &mut [u64], places: &mut [u64]) -> usize
    ensures { SaysShown r answer.old places.old result answer.new places.new }
{
    put_chart(r.chart, places);
    say(r.answer, answer)
}

// ---- files

// Reads a dataset.
#[unsafe(no_mangle)]
pub extern "C" fn ezdurvash_read(dataset: &[u8], answer: &mut [u64]) -> usize
    ensures { SaysRead dataset.now answer.old result answer.new }
{
    let a = read(dataset);
    say(a, answer)
}

// Writes a dataset: its written form and zeroes behind it, or zeroes alone where it is refused.
#[unsafe(no_mangle)]
pub extern "C" fn ezdurvash_write(dataset: &[u8], out: &mut [u8], answer: &mut [u64]) -> usize
    ensures { SaysWrite dataset.now (length out.old) answer.old result out.new answer.new }
{
    let a = write(dataset, out);
    say(a, answer)
}

// Lists a dataset: `out` holds the listing of the input and is zero behind it, and the result is its length; where it has no room, `out` is
// wholly zero, and the result is 0, which is the length of no listing.
#[unsafe(no_mangle)]
pub extern "C" fn ezdurvash_list(input: &[u8], out: &mut [u8]) -> usize
    ensures { Lists input.now (length out.old) result out.new }
{
    listing::list(input, out)
}

// Updates a dataset: the result and zeroes behind it, or zeroes alone where it is refused; the workspace is zero.
#[unsafe(no_mangle)]
pub extern "C" fn ezdurvash_update(
    dataset: &[u8],
    file: &[u8],
    out: &mut [u8],
    work: &mut [u8],
    answer: &mut [u64],
) -> usize
    ensures { SaysUpdate dataset.now file.now (length out.old) (length work.old) answer.old result out.new work.new answer.new }
{
    let a = update(dataset, file, out, work);
    say(a, answer)
}

// The field of a number in the record of a number of a file, both from 1: its tag, where its body starts and where that ends go into the first three
// places of `field`. The result is 1 where there is one, else 0.
#[unsafe(no_mangle)]
pub extern "C" fn ezdurvash_field(file: &[u8], m: usize, n: usize, field: &mut [u64]) -> usize
    ensures { SaysField file.now m n field.old result field.new }
{
    match field_of_record(file, m, n) {
        Some(found) => {
            put_three(found.tag as usize, found.start, found.end, field);
            1
        }
        None => 0,
    }
}

// ---- displays

// A display begins with a dataset: its chart, the dataset's written form, stands in the first pool. The chart's place and length go into the first two
// places of `chart`.
#[unsafe(no_mangle)]
pub extern "C" fn ezdurvash_begin(
    dataset: &[u8],
    first: &mut [u8],
    answer: &mut [u64],
    chart: &mut [u64],
) -> usize
    ensures { SaysBegin dataset.now (length first.old) answer.old chart.old result first.new answer.new chart.new }
{
    let r = begin(dataset, first);
    say_shown(r, answer, chart)
}

// A file reaches a display whose chart has `size` bytes, in the second pool where `place` is not 0, else in the first. Where the chart stands then goes
// into `chart`: in the other pool exactly where the result is 0.
#[unsafe(no_mangle)]
pub extern "C" fn ezdurvash_hand(
    place: usize,
    size: usize,
    first: &mut [u8],
    second: &mut [u8],
    file: &[u8],
    work: &mut [u8],
    answer: &mut [u64],
    chart: &mut [u64],
) -> usize
    ensures { SaysHand place size first.old second.old file.now (length work.old) answer.old chart.old result first.new second.new work.new answer.new chart.new }
{
    let c = Chart {
        second: place != 0,
        length: size,
    };
    let r = hand(c, first, second, file, work);
    say_shown(r, answer, chart)
}

// ---- a month

// The number of a pool.
fn pool_number(second: bool) -> usize
    ensures { result ≡ pick second 2 1 }
{
    if second { 2 } else { 1 }
}

// A month of updates: the files of a list, each preceded by its length in four bytes, are applied one by one to the dataset of `size` bytes in the
// first pool. How many were applied, the pool of the result, 1 or 2, and its length there go into the first three places of `result`.
#[unsafe(no_mangle)]
pub extern "C" fn ezdurvash_month(
    list: &[u8],
    first: &mut [u8],
    size: usize,
    second: &mut [u8],
    work: &mut [u8],
    answer: &mut [u64],
    res: &mut [u64],
) -> usize
    ensures { SaysMonth list.now first.old size second.old work.old answer.old res.old result first.new second.new work.new answer.new res.new }
{
    let m = month(list, first, size, second, work);
    put_three(m.applied, pool_number(m.second), m.length, res);
    say(m.answer, answer)
}

// ---- the bridge cable

// What a master answered with, in the first three places of `out`: 1, where the parcel starts and its length; zeroes for silence and 27.
fn put_reply(r: Reply, out: &mut [u64])
    ensures { out.new ≡ reply_numbers r out.old }
{
    match r {
        Reply::Refused => put_three(0, 0, 0, out),
        Reply::Silence => put_three(0, 0, 0, out),
        Reply::Parcel { start, length } => put_three(1, start, length, out),
    }
}

// A master answers a holding with the first parcel of its shelf that follows it.
#[unsafe(no_mangle)]
pub extern "C" fn ezdurvash_reply(
    holding: &[u8],
    shelf: &[u8],
    answer: &mut [u64],
    res: &mut [u64],
) -> usize
    ensures { SaysReply holding.now shelf.now answer.old res.old result answer.new res.new }
{
    let r = reply(holding, shelf);
    let a = answer_of(r);
    put_reply(r, res);
    say(a, answer)
}

// A display tells its holding: `out` holds it and is zero behind it, or is wholly zero where the chart is refused or there is no room.
#[unsafe(no_mangle)]
pub extern "C" fn ezdurvash_tell(chart: &[u8], out: &mut [u8], answer: &mut [u64]) -> usize
    ensures { SaysTell chart.now (length out.old) answer.old result out.new answer.new }
{
    let a = tell(chart, out);
    say(a, answer)
}

// A parcel reaches a display, whose chart stands as with `ezdurvash_hand`.
#[unsafe(no_mangle)]
pub extern "C" fn ezdurvash_take(
    place: usize,
    size: usize,
    first: &mut [u8],
    second: &mut [u8],
    parcel: &[u8],
    work: &mut [u8],
    answer: &mut [u64],
    chart: &mut [u64],
) -> usize
    ensures { SaysTake place size first.old second.old parcel.now (length work.old) answer.old chart.old result first.new second.new work.new answer.new chart.new }
{
    let c = Chart {
        second: place != 0,
        length: size,
    };
    let r = take(c, first, second, parcel, work);
    say_shown(r, answer, chart)
}
