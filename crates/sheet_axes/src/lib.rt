// The axes of a job sheet, to the end of the text. What is read goes into buffers that the caller lends, at fixed distances, since
// how many axes there are is known only at the end.
#![tactic(auto)]

ghost use Rattle.std.specs.Prelude.{◌≡◌, length, OnOk};
ghost use Rattle.sheet_reading.specs.Says.{Stands};
ghost use Rattle.sheet_axes.specs.Says.{AxesSay};

use rules::SheetError;
use sheet_axis::axis;
use sheet_reading::{Cursor, invalid_sheet};
use sheet_sizes::{AxesSizes, TOO_MANY_NUMBERS, TOO_MANY_POINTS, axes_with};

// How many axes there are and what was counted on them (crates/sheet_sizes).
#[derive(Clone, Copy)]
pub struct AxesRead {
    pub axes: usize,
    pub sizes: AxesSizes,
}

// J20: "1 to 8 axes". (It stays apart from the 8 axes that a build takes: to have that constant, the reader of sheets would lean on
// crates/questions for it alone.)
const MOST_AXES: usize = 8;

// What so many axes take of points, and of a state's numbers: one more of each than an axis may have.
pub const POINTS_ROOM: usize = MOST_AXES * TOO_MANY_POINTS;

pub const STATE_ROOM: usize = MOST_AXES * TOO_MANY_NUMBERS;

// J1, J20: the axes, 8 at the most, to the end of the text. (The loop by number stays: each axis is lent its part of each of the three
// buffers, so iterators over the parts would have to be zipped twice, and of what is lent inside a zip no more is known afterwards than
// its length. The buffers stay three parameters, as crates/sheet_axis says.)
pub fn read_axes(
    cursor: &mut Cursor,
    points: &mut [i64; POINTS_ROOM],
    start: &mut [i64; STATE_ROOM],
    end: &mut [i64; STATE_ROOM],
) -> Result<AxesRead, SheetError>
    ensures same { cursor.new.text.now ≡ cursor.old.text.now }
    ensures says { AxesSay cursor.old.text.now cursor.old.at result points.new start.new end.new }
    ensures stands { Stands cursor.new.at result }
    ensures ended { OnOk result (cursor.new.at ≡ length cursor.old.text.now) }
{
    let mut sofar = None;
    for k in 0..MOST_AXES {
        let a = k * TOO_MANY_POINTS;
        let b = k * TOO_MANY_NUMBERS;
        let read = axis(
            cursor,
            &mut points[a..a + TOO_MANY_POINTS],
            &mut start[b..b + TOO_MANY_NUMBERS],
            &mut end[b..b + TOO_MANY_NUMBERS],
        )?;
        let sizes = axes_with(sofar, read);
        if cursor.at == cursor.text.len() {
            return Ok(AxesRead { axes: k + 1, sizes });
        }
        sofar = Some(sizes);
    }
    Err(invalid_sheet(cursor.at))
}
