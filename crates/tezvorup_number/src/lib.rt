// What C and Rust call to read a number on a job sheet whose bytes come in pieces: the routines of crates/number. Both records cross the
// boundary as they are; `spline_number` is rules::NumberReading, and `spline_whole` is rules::NumberAnswer. Each stays a call of one line:
// an exported name is a function of its own, and here is all that C calls.
#![tactic(auto)]

ghost use Rattle.std.specs.Prelude.{◌≡◌};
ghost use Rattle.rules.specs.SheetNumbers.{begun, go_on, finished};

use rules::{NumberAnswer, NumberReading};

// A1, N2: a number that is to be read from a place on.
#[unsafe(no_mangle)]
pub extern "C" fn spline_begin_number(at: usize) -> NumberReading
    ensures { result ≡ begun at }
{
    number::begin(at)
}

// A1, N2, N6: the next bytes. (Record and bytes stay two parameters: C hands them over so.)
#[unsafe(no_mangle)]
pub extern "C" fn spline_continue_number(reading: NumberReading, bytes: &[u8]) -> NumberReading
    ensures { result ≡ go_on reading bytes.now }
{
    number::go_on(reading, bytes)
}

// A1, N5, N7: what the number says if nothing more comes.
#[unsafe(no_mangle)]
pub extern "C" fn spline_finish_number(reading: NumberReading) -> NumberAnswer
    ensures { result ≡ finished reading }
{
    number::finish(reading)
}
