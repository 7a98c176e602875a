// A display that follows the master. It has two pools: one holds its chart, and what a file makes of the chart is built in the other while the chart
// stays in use.
#![tactic(auto)]

ghost use Rattle.std.specs.Prelude.{◌≡◌, length, take};
ghost use Rattle.promises.specs.Promise.{Updates};
ghost use Rattle.updater.specs.Stages.{TestedIf};
ghost use Rattle.display.specs.Pools.{chart_in, next_chart, Begun, Followed};

use rules::Answer;
use updater::update_tested;
use writer::write;

// Where the chart stands: in the second pool or in the first, and its length there.
#[derive(Clone, Copy)]
pub struct Chart {
    pub second: bool,
    pub length: usize,
}

// The answer to a file, and the chart after it.
#[derive(Clone, Copy)]
pub struct Shown {
    pub answer: Answer,
    pub chart: Chart,
}

// Hands a file to the updater with the chart at the front of a pool, no more of it than the pool has; the result is built in the other pool.
fn hand_over(
    tested: bool,
    from: &[u8],
    size: usize,
    file: &[u8],
    to: &mut [u8],
    work: &mut [u8],
) -> Answer
    requires { TestedIf tested (take size from.now) }
    ensures { Updates (take size from.now) file.now (length to.old) (length work.old) result to.new work.new }
{
    let n = size.min(from.len());
    update_tested(tested, &from[..n], file, to, work)
}

// Where the chart stands after an answer: where that is done, in the other pool.
fn next_chart(chart: Chart, a: Answer) -> Chart
    ensures { result ≡ next_chart chart a }
{
    if a.number != 0 {
        return chart;
    }
    Chart {
        second: !chart.second,
        length: a.length,
    }
}

// The first chart: the written form of a dataset, in the first pool; none where it is refused.
pub fn begin(dataset: &[u8], first: &mut [u8]) -> Shown
    ensures { Begun dataset.now (length first.old) result first.new }
{
    let answer = write(dataset, first);
    Shown {
        answer,
        chart: Chart {
            second: false,
            length: answer.length,
        },
    }
}

// As `hand`; a chart that is known to pass its own tests, since the updater wrote it, is not tested again.
pub fn hand_tested(
    tested: bool,
    chart: Chart,
    first: &mut [u8],
    second: &mut [u8],
    file: &[u8],
    work: &mut [u8],
) -> Shown
    requires { TestedIf tested (chart_in chart first.old second.old) }
    ensures { Followed chart first.old second.old file.now (length work.old) result first.new second.new work.new }
{
    let length = chart.length;
    if chart.second {
        let answer = hand_over(tested, second, length, file, first, work);
        return Shown {
            answer,
            chart: next_chart(chart, answer),
        };
    }
    let answer = hand_over(tested, first, length, file, second, work);
    Shown {
        answer,
        chart: next_chart(chart, answer),
    }
}

// A file reaches the display.
pub fn hand(
    chart: Chart,
    first: &mut [u8],
    second: &mut [u8],
    file: &[u8],
    work: &mut [u8],
) -> Shown
    ensures { Followed chart first.old second.old file.now (length work.old) result first.new second.new work.new }
{
    hand_tested(false, chart, first, second, file, work)
}
