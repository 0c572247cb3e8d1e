// What C and Rust call to read a job sheet, and to build from one. Both are thin and take any text; what their records stand for
// is in crates/tezvorup_records.
#![tactic(auto)]

ghost use Rattle.std.specs.Prelude.{◌≡◌, length};
ghost use Rattle.rules.specs.SheetAnswers.{sheet_place, sheet_answer, sheet_buffer};
ghost use Rattle.tezvorup_records.specs.Meaning.{place_of, sheet_answer_of};

use tezvorup_records::{RawPlace, RawSheet};

// A1, J12, J13: a job sheet is read (document 02, Wish 1): its number and place, the build's questions included. Nothing is
// written.
#[unsafe(no_mangle)]
pub extern "C" fn spline_read_sheet(text: &[u8]) -> RawPlace
    ensures { result ≡ place_of (sheet_place text.now) }
{
    RawPlace::of(text, sheet::read_place(text))
}

// A1, J9, J13, J27: the build from a job sheet, into the first cells of a buffer. They are written where the number answered is 0.
#[unsafe(no_mangle)]
pub extern "C" fn spline_build_sheet(text: &[u8], coefficients: &mut [f64]) -> RawSheet
    ensures { (result ≡ sheet_answer_of (sheet_answer text.now (length coefficients.old)))
        × (coefficients.new ≡ sheet_buffer text.now coefficients.old) }
{
    RawSheet::of(text, sheet::build_sheet(text, coefficients))
}
