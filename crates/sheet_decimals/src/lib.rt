// Digits of a job sheet, read once for their end and their worth together, as the judge of crates/rules/specs/SheetReading.antt
// reads them at the same place.
#![tactic(auto)]

ghost use Rattle.std.specs.Prelude.{◌≡◌, true, ◌^◌, ◌≤◌};
ghost use Rattle.sheet_decimals.specs.Says.{digit_from, DigitsSay, DecimalSmall};

use sheet_reading::Cursor;

// Why there is no number at the cursor: there is no first digit, or the digit there passes the limit. (It stays an enum of its own:
// only the caller knows with which number, and at which place, a digit past the limit is refused.)
#[derive(Clone, Copy)]
pub enum DecimalError {
    Missing,
    Over,
}

// J22: 2^40. (It stays apart from the limit of crates/master_numbers, which is M7's: rules of different things.)
pub const LIMIT: u64 = 1_099_511_627_776;

// Whether b is a digit, and not below the digit `least`.
pub fn digit_from(least: u8, b: u8) -> bool
    ensures is { result ≡ digit_from least b }
    ensures bounds { result ≡ true → (least ≤ b) × (b ≤ 57) }
{
    least <= b && b <= b'9'
}

// The digits after some that are worth n. It stops at the digit that passes the limit, so nothing overflows. (The loop stays: a search
// for the first byte that is no digit would need a second loop for the worth, and that loop alone finds the digit past the limit. The
// limit's own limit stays a clause of this function and of `positive` in crates/sheet_numbers: a type for it would be made of the two
// limits, 64 and 2^40, and say no more.)
pub fn digits(cursor: &mut Cursor, n: u64, limit: u64) -> Result<u64, DecimalError>
    requires { (n ≤ limit) × (limit ≤ 2 ^ 40) }
    ensures same { cursor.new.text.now ≡ cursor.old.text.now }
    ensures says { DigitsSay cursor.old.text.now cursor.old.at n limit cursor.new.at result }
    ensures forward { cursor.old.at ≤ cursor.new.at }
    ensures small { DecimalSmall n limit result }
{
    let mut value = n;
    for &b in &cursor.text[cursor.at..] {
        if !digit_from(b'0', b) {
            return Ok(value);
        }
        let sum = value * 10 + u64::from(b - b'0');
        if limit < sum {
            return Err(DecimalError::Over);
        }
        value = sum;
        cursor.at += 1;
    }
    Ok(value)
}
