// One byte of a number on a job sheet: what it makes of the record that is kept, by crates/rules/specs/SheetNumbers.antt.
//
// Stage and minus stay numbers: the record crosses to C as it is, so any number may stand in them, and a record that no reading makes is
// kept as it is. An enum would have to be made of the stage and turned back at each byte, with a case for the numbers that are no stage.
#![tactic(auto)]

ghost use Rattle.std.specs.Prelude.{◌≡◌, ◌^◌, ◌≤◌, true};
ghost use Rattle.rules.specs.SheetNumbers.{belongs, left, passed, with_digit, taken};

use rules::NumberReading;
use sheet_decimals::{LIMIT, digit_from};

// N2: how far a reading is.
pub const FRESH: u8 = 0;

pub const MINUS: u8 = 1;

pub const ZERO: u8 = 2;

pub const DIGITS: u8 = 3;

pub const ENDED: u8 = 4;

pub const FAULTED: u8 = 5;

pub const LARGE: u8 = 6;

// The byte is not part of the number: another stage, at the same place.
fn left(reading: NumberReading, stage: u8) -> NumberReading
    ensures { result ≡ left reading stage }
{
    NumberReading { stage, ..reading }
}

// The byte is a minus or a 0: another stage, one place on.
fn passed(reading: NumberReading, stage: u8, minus: u8) -> NumberReading
    ensures { result ≡ passed reading stage minus }
{
    NumberReading {
        next: reading.next.wrapping_add(1),
        stage,
        minus,
        ..reading
    }
}

// N1, N8: the byte is a digit. One that takes the size past 2^40 is not added, so that no sum overflows.
#[tactic(auto, unfolding(rules::specs::SheetNumbers::with_digit))]
fn with_digit(reading: NumberReading, d: u64) -> NumberReading
    requires { (reading.size ≤ 2 ^ 40) × (d ≤ 9) }
    ensures { result ≡ with_digit reading d }
{
    let sum = reading.size * 10 + d;
    if LIMIT < sum {
        return left(reading, LARGE);
    }
    NumberReading {
        next: reading.next.wrapping_add(1),
        size: sum,
        stage: DIGITS,
        ..reading
    }
}

// Whether a byte is a digit of the number.
fn belongs(stage: u8, b: u8) -> bool
    ensures is { result ≡ belongs stage b }
    ensures bounds { result ≡ true → (48 ≤ b) × (b ≤ 57) }
{
    if stage == DIGITS {
        return digit_from(b'0', b);
    }
    if MINUS < stage {
        return false;
    }
    digit_from(b'1', b)
}

// N1, N2: the next byte. No digit follows a 0, and a minus or a place without a first digit is at fault. (The two calls of `left` stay in
// their arms, each a line of the rule: one call for both would ask for the stage a second time.)
#[tactic(auto, unfolding(rules::specs::SheetNumbers::taken))]
pub fn taken(reading: NumberReading, b: u8) -> NumberReading
    requires { reading.size ≤ 2 ^ 40 }
    ensures { result ≡ taken reading b }
{
    if belongs(reading.stage, b) {
        return with_digit(reading, u64::from(b - b'0'));
    }
    match (reading.stage, b) {
        (FRESH, b'-') => passed(reading, MINUS, 1),
        (FRESH, b'0') => passed(reading, ZERO, reading.minus),
        (FRESH | MINUS, _) => left(reading, FAULTED),
        _ => left(reading, ENDED),
    }
}
