// Numbers on a job sheet whose bytes come in pieces: begin at a place, go on with some bytes as often as there are some, and finish. What
// is kept between two pieces is one record by value, and a record that no reading makes is answered too. What each routine gives is in
// crates/rules/specs/SheetNumbers.antt, and what holds of them together in crates/theorem_numbers/specs/Pieces.antt.
#![tactic(auto)]

ghost use Rattle.std.specs.Prelude.{◌≡◌, true, ◌&&◌, ◌^◌, ◌≤◌, eqb};
ghost use Rattle.rules.specs.SheetNumbers.{too_large, signed_by, begun, sound, go_on, is_read, finished};

use number_byte::{ENDED, FRESH, LARGE, ZERO};
use number_pieces::{is_sound, with_byte, with_digits};
use rules::{NumberAnswer, NumberReading, PathError};

// N2: a number that is to be read from a place on.
pub fn begin(at: usize) -> NumberReading
    ensures { result ≡ begun at }
{
    NumberReading {
        start: at,
        next: at,
        size: 0,
        stage: FRESH,
        minus: 0,
    }
}

// N2, N4, N6: the next bytes, each looked at once, up to the first that is not part of the number. After two of them a number is in its
// digits or over, so that the loop over the others has one stage to look for. (Record and bytes stay two parameters, as C hands them
// over.)
#[tactic(auto, using(crate::proofs::Two::after_two, crate::proofs::Two::two_and_others), unfolding(rules::specs::SheetNumbers::go_on))]
pub fn go_on(reading: NumberReading, bytes: &[u8]) -> NumberReading
    ensures { result ≡ go_on reading bytes.now }
{
    let [a, rest @ ..] = bytes else {
        return reading;
    };
    let first = with_byte(reading, *a);
    let [b, others @ ..] = rest else {
        return first;
    };
    let second = with_byte(first, *b);
    with_digits(second, others)
}

// A size with its sign. (The minus stays a number, as crates/number_byte says, and how large the size is stays a clause: any number may
// stand in a record that C hands over.)
fn signed(minus: u8, size: u64) -> i64
    requires { size ≤ 2 ^ 40 }
    ensures { result ≡ signed_by (eqb minus 1) size }
{
    let value = size as i64;
    if minus == 1 { -value } else { value }
}

// Whether the record is one of a number that was read.
fn is_read(reading: NumberReading) -> bool
    ensures is { result ≡ (sound reading && is_read reading.stage) }
    ensures bounds { result ≡ true → reading.size ≤ 2 ^ 40 }
{
    ZERO <= reading.stage && reading.stage <= ENDED && is_sound(reading)
}

// Whether it is one of a number beyond ±2^40.
fn is_large(reading: NumberReading) -> bool
    ensures { result ≡ (sound reading && eqb reading.stage too_large) }
{
    reading.stage == LARGE && is_sound(reading)
}

// N2, N5, N7: what the record says if nothing more comes.
#[tactic(auto, unfolding(rules::specs::SheetNumbers::finished))]
pub fn finish(reading: NumberReading) -> NumberAnswer
    ensures { result ≡ finished reading }
{
    if is_read(reading) {
        return NumberAnswer {
            number: 0,
            at: reading.next,
            value: signed(reading.minus, reading.size),
        };
    }
    if is_large(reading) {
        return NumberAnswer {
            number: u32::from(PathError::InvalidArgument),
            at: reading.start,
            value: 0,
        };
    }
    NumberAnswer {
        number: u32::from(PathError::InvalidSheet),
        at: reading.next,
        value: 0,
    }
}
