// The program's whole output for a job sheet. It takes any text and buffers of any length. (Printing stays by hand, as crates/sheet_bits
// says.)
#![tactic(auto)]

ghost use Rattle.std.specs.Prelude.{◌≡◌, ◌++◌, ◌≤◌, length, drop};
ghost use Rattle.rules.specs.SheetAnswers.{count_answered, most_bytes, sheet_printed, printed_cells, printed_bytes};
ghost use Rattle.sheet_print.specs.Printing.{IsPrintable, output_of};

use rules::{PathError, PathRecord, SheetError};
use sheet::build_sheet;

// J10, J11, J12: the output of what was built into a buffer.
fn write_answer(answer: Result<PathRecord, SheetError>, coeffs: &[f64], out: &mut [u8]) -> usize
    requires { (most_bytes ≤ length out.old) × IsPrintable answer (length coeffs.now) }
    ensures { (result ≡ length (output_of answer coeffs.now))
        × (out.new ≡ output_of answer coeffs.now ++ drop (length (output_of answer coeffs.now)) out.old) }
{
    match answer {
        Ok(path) => {
            let cells = path.axes * path.segments * (path.order + 1);
            sheet_output::write_table(path, &coeffs[..cells], out)
        }
        Err(refusal) => sheet_lines::write_refused(u32::from(refusal.cause), refusal.at, out),
    }
}

// J27: the cells of the longest table.
pub const MOST_CELLS: usize = 16384;

// J27: the bytes of the longest output.
pub const MOST_BYTES: usize = 302240;

// A1, D1, J9, J27: the program's whole output, written into the first bytes of a buffer; the others stay as they were. 16,384 cells
// and 302,240 bytes suffice for every sheet, and shorter buffers are refused.
pub fn print_sheet(text: &[u8], coeffs: &mut [f64], out: &mut [u8]) -> Result<usize, PathError>
    ensures { (count_answered result ≡ sheet_printed text.now (length coeffs.old) (length out.old))
        × (coeffs.new ≡ printed_cells text.now coeffs.old (length out.old))
        × (out.new ≡ printed_bytes text.now (length coeffs.old) out.old) }
{
    if coeffs.len() < MOST_CELLS {
        return Err(PathError::InvalidLength);
    }
    if out.len() < MOST_BYTES {
        return Err(PathError::InvalidLength);
    }
    let answer = build_sheet(text, coeffs);
    Ok(write_answer(answer, coeffs, out))
}
