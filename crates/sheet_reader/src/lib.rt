// A whole job sheet: order and range, then the axes to the end of the text, in one pass. What is read goes into buffers that the
// caller lends. (The buffers stay three parameters, as crates/sheet_axis says.)
#![tactic(auto)]

ghost use Rattle.rules.specs.SheetFaults.{judge};
ghost use Rattle.sheet_reader.specs.Says.{WholeSays, SheetSays};

use rules::SheetError;
use sheet_axes::{POINTS_ROOM, STATE_ROOM, read_axes};
use sheet_heading::heading;
use sheet_reading::{Cursor, invalid_sheet};
use sheet_record::SheetNumbers;

// J16, J23, J24: a text that is judged whole: the first of 600, 601 and 4 ends the reading; 2 and 3 are looked at only after it, so a
// sheet that was read to its end may still be refused.
#[tactic(auto, using(crate::proofs::Whole::axes_stop))]
fn read_whole(
    text: &[u8],
    points: &mut [i64; POINTS_ROOM],
    start: &mut [i64; STATE_ROOM],
    end: &mut [i64; STATE_ROOM],
) -> Result<Result<SheetNumbers, SheetError>, SheetError>
    ensures { WholeSays text.now result points.new start.new end.new }
{
    let mut cursor = Cursor { text, at: 0 };
    let first = heading(&mut cursor)?;
    let rest = read_axes(&mut cursor, points, start, end)?;
    let sizes = rest.sizes;
    match sizes.fault {
        Some(fault) => Ok(Err(fault)),
        None => Ok(Ok(SheetNumbers {
            order: first.order,
            from: first.from,
            to: first.to,
            axes: rest.axes,
            points: sizes.points,
            start: sizes.start,
            end: sizes.end,
        })),
    }
}

// J19: the bytes that are judged.
const LONGEST: usize = 32768;

// J14, J19: a sheet that only the build's questions could still refuse. Only the first 32,768 bytes are looked at: a longer text is
// refused at least behind them, before any size (J23).
pub fn read_sheet(
    text: &[u8],
    points: &mut [i64; POINTS_ROOM],
    start: &mut [i64; STATE_ROOM],
    end: &mut [i64; STATE_ROOM],
) -> Result<SheetNumbers, SheetError>
    ensures { SheetSays (judge text.now) result points.new start.new end.new }
{
    if LONGEST < text.len() {
        let _sized = read_whole(&text[..LONGEST], points, start, end)?;
        return Err(invalid_sheet(LONGEST));
    }
    read_whole(text, points, start, end)?
}
