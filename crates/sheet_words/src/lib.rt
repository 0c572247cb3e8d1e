// The fixed bytes of a job sheet. What is passed is what the judge of crates/rules/specs/SheetReading.antt reads at the same place.
#![tactic(auto)]

ghost use Rattle.std.specs.Prelude.{◌≡◌, length, drop};
ghost use Rattle.rules.specs.SheetReading as reading;
ghost use Rattle.sheet_reading.specs.Says.{read_of, IsInside, Stands};

use rules::SheetError;
use sheet_reading::{Cursor, invalid_sheet};

// J1, J2: fixed bytes. The refusal is at the first byte that is another, or at the end of the text. (So the loop stays: a comparison of
// slices does not tell which byte is another, and `all` would take a closure that moves the cursor, whose contract is this loop's. Cursor
// and bytes stay two parameters here, in `led` of crates/sheet_axis and in `led_number` of crates/sheet_heading: the cursor goes on, and
// the bytes are others at each call.)
pub fn word(cursor: &mut Cursor, w: &[u8]) -> Result<(), SheetError>
    ensures same { cursor.new.text.now ≡ cursor.old.text.now }
    ensures says { read_of cursor.old.text.now cursor.new.at result ≡ reading.word w.now (drop cursor.old.at cursor.old.text.now) }
    ensures inside { IsInside cursor.old.at (length cursor.old.text.now) cursor.new.at result }
    ensures stands { Stands cursor.new.at result }
{
    for &b in w {
        if !cursor.eat(b) {
            return Err(invalid_sheet(cursor.at));
        }
    }
    Ok(())
}
