// The first two lines of a job sheet: order and range.
#![tactic(auto)]

ghost use Rattle.std.specs.Prelude.{◌≡◌};
ghost use Rattle.rules.specs.Sheets.{bytes, within, below4};
ghost use Rattle.rules.specs.SheetReading.{read_upper};
ghost use Rattle.sheet_reading.specs.Says.{Stands};
ghost use Rattle.sheet_heading.specs.Says.{led_number, NumberSays, HeadingSays};

use rules::SheetError;
use sheet_numbers::number;
use sheet_reading::Cursor;
use sheet_words::word;

// Order and range as they stand.
#[derive(Clone, Copy)]
pub struct HeadingNumbers {
    pub order: i64,
    pub from: i64,
    pub to: i64,
}

// Fixed bytes, and then a number. (The same of a list is `led` of crates/sheet_axis: one function for both would take the second
// reading as a closure, and be no shorter than the two. Cursor and bytes stay two parameters, as crates/sheet_words says.)
fn led_number(cursor: &mut Cursor, w: &[u8]) -> Result<i64, SheetError>
    ensures same { cursor.new.text.now ≡ cursor.old.text.now }
    ensures says { NumberSays (led_number w.now) w.now (bytes "")
        cursor.old.text.now cursor.old.at cursor.new.at result }
    ensures stands { Stands cursor.new.at result }
{
    word(cursor, w)?;
    number(cursor)
}

// J1: the upper end of the range, and the end of its line.
fn upper(cursor: &mut Cursor) -> Result<i64, SheetError>
    ensures same { cursor.new.text.now ≡ cursor.old.text.now }
    ensures says { NumberSays (read_upper within below4) (bytes " ") (bytes ")\n")
        cursor.old.text.now cursor.old.at cursor.new.at result }
    ensures stands { Stands cursor.new.at result }
{
    let to = led_number(cursor, b" ")?;
    word(cursor, b")\n")?;
    Ok(to)
}

// J1: order and range.
pub fn heading(cursor: &mut Cursor) -> Result<HeadingNumbers, SheetError>
    ensures same { cursor.new.text.now ≡ cursor.old.text.now }
    ensures says { HeadingSays cursor.old.text.now cursor.old.at cursor.new.at result }
    ensures stands { Stands cursor.new.at result }
{
    Ok(HeadingNumbers {
        order: led_number(cursor, b"(order ")?,
        from: led_number(cursor, b")\n(range ")?,
        to: upper(cursor)?,
    })
}
