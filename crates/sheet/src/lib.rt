// The entry points for job sheets: a sheet's number and place, and its table. Each takes any text and a buffer of any length, and
// looks at the first 32,768 bytes of the text.
//
// What is alike in both stays in both: the arrays are lent, and no function can hand back what it lends. The matches stay, too: with
// `map_err`, whose promise is said through its closure, the answer was tried and not proved.
#![tactic(auto)]

ghost use Rattle.std.specs.Prelude.{◌≡◌, length};
ghost use Rattle.rules.specs.SheetAnswers.{place_answered, sheet_answered, sheet_place, sheet_answer, sheet_buffer};

use rules::{PathRecord, SheetError};
use sheet_axes::{POINTS_ROOM, STATE_ROOM};
use sheet_reader::read_sheet;
use sheet_record::SheetRead;

// A1, J12, J13: the refusal that the program prints, the build's questions included. Nothing is written.
#[tactic(auto, using(crate::proofs::Answers::it_is_reached))]
pub fn read_place(text: &[u8]) -> Result<(), SheetError>
    ensures { place_answered text.now result ≡ sheet_place text.now }
{
    let mut points = [0; POINTS_ROOM];
    let mut start = [0; STATE_ROOM];
    let mut end = [0; STATE_ROOM];
    let numbers = read_sheet(text, &mut points, &mut start, &mut end)?;
    let read = SheetRead {
        numbers,
        points: &points,
        start: &start,
        end: &end,
    };
    match sheet_questions::number_of(read) {
        Ok(()) => Ok(()),
        Err(cause) => Err(SheetError {
            cause,
            at: text.len(), // J13: of the questions
        }),
    }
}

// A1, D1, J9, J13, J27: the table of a sheet, built into the first cells of a buffer; the others stay as they were. 16,384 cells
// always suffice, and a buffer that is too short is refused as one of another length is.
#[tactic(auto, using(crate::proofs::Answers::it_is_reached))]
pub fn build_sheet(text: &[u8], coeffs: &mut [f64]) -> Result<PathRecord, SheetError>
    ensures { (sheet_answered text.now result ≡ sheet_answer text.now (length coeffs.old))
        × (coeffs.new ≡ sheet_buffer text.now coeffs.old) }
{
    let mut points = [0; POINTS_ROOM];
    let mut start = [0; STATE_ROOM];
    let mut end = [0; STATE_ROOM];
    let numbers = read_sheet(text, &mut points, &mut start, &mut end)?;
    let read = SheetRead {
        numbers,
        points: &points,
        start: &start,
        end: &end,
    };
    match sheet_table::build_read(read, coeffs) {
        Ok(path) => Ok(path),
        Err(cause) => Err(SheetError {
            cause,
            at: text.len(), // J13: of the build
        }),
    }
}
