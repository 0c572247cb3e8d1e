// The bytes of a number on a job sheet, one after the other, as long as the record that is kept takes them. What they make of it is in
// crates/rules/specs/SheetNumbers.antt.
#![tactic(auto)]

ghost use Rattle.std.specs.Prelude.{◌≡◌, true, ◌^◌, ◌≤◌, ◌∷◌, [], take, drop};
ghost use Rattle.rules.specs.SheetNumbers.{sound, is_open, go_on};
ghost use Rattle.theorem_numbers.specs.Pieces.{Settled, is_more};

use number_byte::{DIGITS, taken};
use rules::NumberReading;
use sheet_decimals::{LIMIT, digit_from};

// N7: whether sign and size are such as a reading can have made.
#[tactic(auto, unfolding(rules::specs::SheetNumbers::sound))]
pub fn is_sound(reading: NumberReading) -> bool
    ensures is { result ≡ sound reading }
    ensures bounds { result ≡ true → reading.size ≤ 2 ^ 40 }
{
    reading.minus <= 1 && reading.size <= LIMIT
}

// N6, N7: whether another byte changes the record.
#[tactic(auto, unfolding(rules::specs::SheetNumbers::is_open))]
fn is_open(reading: NumberReading) -> bool
    ensures is { result ≡ is_open reading }
    ensures bounds { result ≡ true → reading.size ≤ 2 ^ 40 }
{
    reading.stage <= DIGITS && is_sound(reading)
}

// A byte, where the record takes it.
#[tactic(auto, using(crate::proofs::Bytes::byte_taken, theorem_numbers::proofs::Going::stays))]
pub fn with_byte(reading: NumberReading, b: u8) -> NumberReading
    ensures { result ≡ go_on reading (b ∷ []) }
{
    if !is_open(reading) {
        return reading;
    }
    taken(reading, b)
}

// The byte at a place, where there is one and the record takes it. (Record, bytes and place stay parameters: the place may lie behind the
// bytes.)
pub fn next_byte(reading: NumberReading, bytes: &[u8], at: usize) -> NumberReading
    ensures { result ≡ go_on reading (take 1 (drop at bytes.now)) }
{
    if bytes.len() <= at {
        return reading;
    }
    with_byte(reading, bytes[at])
}

// Whether a byte is one more digit behind others, which the limit lets pass. (It is asked before the byte is taken, so that the loop has
// this case alone. How large the size is stays a clause: the record crosses to C as it is, and any number may stand in it.)
fn is_more(size: u64, b: u8) -> bool
    requires { size ≤ 2 ^ 40 }
    ensures { result ≡ is_more size b }
{
    digit_from(b'0', b) && size * 10 + u64::from(b - b'0') <= LIMIT
}

// Bytes, of a record that is in its digits, or takes none of them. (Record and bytes stay two parameters, as C hands them over. The loop
// stays by hand: it goes on with what it has kept, and a search by `position` would read the digits and leave their worth to a second
// loop.)
#[tactic(auto, using(crate::proofs::Bytes::settled_stays, theorem_numbers::proofs::Pieces::unsound_is_over, theorem_numbers::proofs::Going::stays))]
pub fn with_digits(reading: NumberReading, bytes: &[u8]) -> NumberReading
    requires { Settled reading bytes.now }
    ensures { result ≡ go_on reading bytes.now }
{
    if reading.stage != DIGITS {
        return reading;
    }
    if !is_sound(reading) {
        return reading;
    }
    let mut kept = reading;
    for &b in bytes {
        if !is_more(kept.size, b) {
            return taken(kept, b);
        }
        kept = taken(kept, b);
    }
    kept
}

// The bytes from a place on, of a record that is in its digits, or takes none of them. (The parameters stay, as above.)
pub fn digits(reading: NumberReading, bytes: &[u8], from: usize) -> NumberReading
    requires { Settled reading (drop from bytes.now) }
    ensures { result ≡ go_on reading (drop from bytes.now) }
{
    if bytes.len() <= from {
        return reading;
    }
    with_digits(reading, &bytes[from..])
}
