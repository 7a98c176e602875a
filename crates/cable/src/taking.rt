// A display takes a parcel.
ghost use Rattle.std.specs.Prelude.{length};
ghost use Rattle.cable.specs.Taken.{Taken};

use crate::parcel::carries_file;
use display::{Chart, Shown, hand};
use memory::clearing::zero;
use rules::Answer;

// A parcel that is not right is 27, and leaves the chart; the file in any other is handed to the display.
pub fn take(
    chart: Chart,
    first: &mut [u8],
    second: &mut [u8],
    parcel: &[u8],
    work: &mut [u8],
) -> Shown
    ensures { Taken chart first.old second.old parcel.now (length work.old) result first.new second.new work.new }
{
    if carries_file(parcel) {
        return hand(chart, first, second, &parcel[6..], work);
    }
    zero(work);
    let answer = Answer::refused(27, 0, 0);
    if chart.second {
        zero(first);
        return Shown { answer, chart };
    }
    zero(second);
    Shown { answer, chart }
}
