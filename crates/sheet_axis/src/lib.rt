// An axis of a job sheet: three lists with fixed bytes between them, each written into a buffer that is one longer than it may be.
// What was counted, and where, is handed on (crates/sheet_sizes). (The buffers stay parameters of their own, here, in
// crates/sheet_axes and in crates/sheet_reader: a struct of the three would be made anew for each axis, of its parts of the buffers, and be
// taken apart at once, and each contract would say in addition that it holds the buffers that were lent. That a buffer has room for at
// most 258 numbers stays a clause: what is lent are parts of buffers, of 258 or of 4 numbers, and `led` takes both.)
#![tactic(auto)]

ghost use Rattle.std.specs.Prelude.{◌≡◌, ◌≤◌, length};
ghost use Rattle.rules.specs.Sheets.{bytes, within, below4};
ghost use Rattle.rules.specs.SheetReading.{read_end};
ghost use Rattle.sheet_reading.specs.Says.{Stands};
ghost use Rattle.sheet_axis.specs.Says.{led_list, ListSays, StatesSay, AxisSays};

use rules::SheetError;
use sheet_items::list;
use sheet_reading::{Count, Cursor};
use sheet_sizes::AxisSizes;
use sheet_words::word;

// The lists of both states.
#[derive(Clone, Copy)]
pub struct StateSizes {
    pub start: Count,
    pub end: Count,
}

// Fixed bytes, and then a list. (Cursor and bytes stay two parameters, as crates/sheet_words says.)
fn led(cursor: &mut Cursor, w: &[u8], out: &mut [i64]) -> Result<Count, SheetError>
    requires { length out.old ≤ 258 }
    ensures same { cursor.new.text.now ≡ cursor.old.text.now }
    ensures says { ListSays (led_list w.now) w.now (bytes "")
        cursor.old.text.now cursor.old.at out.old cursor.new.at result out.new }
    ensures stands { Stands cursor.new.at result }
{
    word(cursor, w)?;
    list(cursor, 0, out, 0)
}

// J1, J2: the end list, and what closes the axis.
fn ending(cursor: &mut Cursor, out: &mut [i64]) -> Result<Count, SheetError>
    requires { length out.old ≤ 258 }
    ensures same { cursor.new.text.now ≡ cursor.old.text.now }
    ensures says { ListSays (read_end within below4) (bytes " (end ") (bytes ")\n")
        cursor.old.text.now cursor.old.at out.old cursor.new.at result out.new }
    ensures stands { Stands cursor.new.at result }
{
    let last = led(cursor, b" (end ", out)?;
    word(cursor, b")\n")?;
    Ok(last)
}

// J8: both states.
fn states(cursor: &mut Cursor, start: &mut [i64], end: &mut [i64]) -> Result<StateSizes, SheetError>
    requires { (length start.old ≤ 258) × (length end.old ≤ 258) }
    ensures same { cursor.new.text.now ≡ cursor.old.text.now }
    ensures says { StatesSay cursor.old.text.now cursor.old.at start.old end.old
        cursor.new.at result start.new end.new }
    ensures stands { Stands cursor.new.at result }
{
    let first = led(cursor, b" (start ", start)?;
    let last = ending(cursor, end)?;
    Ok(StateSizes {
        start: first,
        end: last,
    })
}

// J1, J8: an axis.
pub fn axis(
    cursor: &mut Cursor,
    points: &mut [i64],
    start: &mut [i64],
    end: &mut [i64],
) -> Result<AxisSizes, SheetError>
    requires { (length points.old ≤ 258) × (length start.old ≤ 258) × (length end.old ≤ 258) }
    ensures same { cursor.new.text.now ≡ cursor.old.text.now }
    ensures says { AxisSays cursor.old.text.now cursor.old.at points.old start.old end.old
        cursor.new.at result points.new start.new end.new }
    ensures stands { Stands cursor.new.at result }
{
    let first = led(cursor, b"(axis (points ", points)?;
    let close = cursor.at - 1;
    let both = states(cursor, start, end)?;
    Ok(AxisSizes {
        points: first,
        close,
        start: both.start,
        end: both.end,
    })
}
