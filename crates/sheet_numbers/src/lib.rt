// Numbers of a job sheet, as the judge of crates/rules/specs/SheetReading.antt reads them at the same place.
#![tactic(auto)]

ghost use Rattle.std.specs.Prelude.{◌≡◌, ◌+◌, ◌<◌, ◌^◌, ◌≤◌, length, drop, OnOk};
ghost use Rattle.rules.specs.Sheets.{within};
ghost use Rattle.rules.specs.SheetReading as reading;
ghost use Rattle.sheet_decimals.specs.Says.{DecimalSmall};
ghost use Rattle.sheet_reading.specs.Says.{read_of, IsInside, Stands};
ghost use Rattle.sheet_numbers.specs.Says.{PositiveSays, plain_at, WholeSmall};

use rules::{PathError, SheetError};
use sheet_decimals::{DecimalError, LIMIT, digit_from, digits};
use sheet_reading::{Cursor, invalid_sheet};

// J3: digits that do not lead with a 0. (The limit's own limit stays a clause, as crates/sheet_decimals says.)
pub fn positive(cursor: &mut Cursor, limit: u64) -> Result<u64, DecimalError>
    requires { (9 ≤ limit) × (limit ≤ 2 ^ 40) }
    ensures same { cursor.new.text.now ≡ cursor.old.text.now }
    ensures says { PositiveSays cursor.old.text.now cursor.old.at limit cursor.new.at result }
    ensures forward { OnOk result (cursor.old.at < cursor.new.at) }
    ensures small { DecimalSmall 1 limit result }
{
    match cursor.byte() {
        Some(b) if digit_from(b'1', b) => {
            cursor.at += 1;
            digits(cursor, u64::from(b - b'0'), limit)
        }
        _ => Err(DecimalError::Missing),
    }
}

// J22: digits as the number that starts at `start`: past the limit it is 4 there, and not at the digit, so the cursor goes back.
fn plain(cursor: &mut Cursor, start: usize) -> Result<i64, SheetError>
    requires { start ≤ cursor.old.at }
    ensures same { cursor.new.text.now ≡ cursor.old.text.now }
    ensures says { read_of cursor.old.text.now cursor.new.at result ≡ plain_at cursor.old.text.now start cursor.old.at }
    ensures inside { IsInside (cursor.old.at + 1) (length cursor.old.text.now) cursor.new.at result }
    ensures stands { Stands cursor.new.at result }
    ensures small { WholeSmall result }
{
    match positive(cursor, LIMIT) {
        Ok(n) => Ok(n as i64),
        Err(DecimalError::Missing) => Err(invalid_sheet(cursor.at)),
        Err(DecimalError::Over) => {
            cursor.at = start;
            Err(SheetError {
                cause: PathError::InvalidArgument,
                at: start,
            })
        }
    }
}

// J3, J22: a number: an optional minus, then 0 alone where there is none, or digits that do not lead with a 0. (Its first byte stays
// matched, and is not eaten: with `eat` for 0 and minus, sheets of short numbers took 1.2 times as long. It is inlined, so that a list's
// loop has the cursor in registers: where it was called, sheets took up to 1.4 times as long.)
#[inline(always)]
pub fn number(cursor: &mut Cursor) -> Result<i64, SheetError>
    ensures same { cursor.new.text.now ≡ cursor.old.text.now }
    ensures says { read_of cursor.old.text.now cursor.new.at result ≡ reading.number within (drop cursor.old.at cursor.old.text.now) }
    ensures inside { IsInside (cursor.old.at + 1) (length cursor.old.text.now) cursor.new.at result }
    ensures stands { Stands cursor.new.at result }
    ensures small { WholeSmall result }
{
    let start = cursor.at;
    let Some(b) = cursor.byte() else {
        return Err(invalid_sheet(start));
    };
    match b {
        b'-' => {
            cursor.at += 1;
            let size = plain(cursor, start)?;
            Ok(-size)
        }
        b'0' => {
            cursor.at += 1;
            Ok(0)
        }
        _ => plain(cursor, start),
    }
}
