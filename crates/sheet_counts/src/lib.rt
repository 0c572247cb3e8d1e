// Counts of a job sheet, and the heading of an `again` form, as the judge of crates/rules/specs/SheetReading.antt reads them at the
// same place.
#![tactic(auto)]

ghost use Rattle.std.specs.Prelude.{◌≡◌, ◌+◌, length, drop};
ghost use Rattle.rules.specs.SheetReading as reading;
ghost use Rattle.sheet_reading.specs.Says.{read_of, IsInside, Stands};
ghost use Rattle.sheet_counts.specs.Says.{CountedSmall};

use rules::SheetError;
use sheet_numbers::positive;
use sheet_reading::{Cursor, invalid_sheet};
use sheet_words::word;

// J6, J20: the largest count.
const MOST: u64 = 64;

// J6, J20: the count of an `again` form, 1 to 64; past 64 it fails at the digit.
fn count(cursor: &mut Cursor) -> Result<usize, SheetError>
    ensures same { cursor.new.text.now ≡ cursor.old.text.now }
    ensures says { read_of cursor.old.text.now cursor.new.at result ≡ reading.count (drop cursor.old.at cursor.old.text.now) }
    ensures inside { IsInside (cursor.old.at + 1) (length cursor.old.text.now) cursor.new.at result }
    ensures stands { Stands cursor.new.at result }
    ensures small { CountedSmall result }
{
    match positive(cursor, MOST) {
        Ok(n) => Ok(n as usize),
        Err(_) => Err(invalid_sheet(cursor.at)),
    }
}

// J4, J6: what follows the bracket of an `again` form, up to its list: the count.
pub fn head(cursor: &mut Cursor) -> Result<usize, SheetError>
    ensures same { cursor.new.text.now ≡ cursor.old.text.now }
    ensures says { read_of cursor.old.text.now cursor.new.at result ≡ reading.head (drop cursor.old.at cursor.old.text.now) }
    ensures inside { IsInside (cursor.old.at + 1) (length cursor.old.text.now) cursor.new.at result }
    ensures stands { Stands cursor.new.at result }
    ensures small { CountedSmall result }
{
    word(cursor, b"again ")?;
    let times = count(cursor)?;
    word(cursor, b" ")?;
    Ok(times)
}
