// The lines of the program's output, each written byte for byte onto a page: those of crates/rules/specs/SheetAnswers.antt.
// That a buffer of 302,240 bytes is long enough for every output is shown in proofs/Fits.antt.
//
// Printing stays by hand, as crates/sheet_bits says. Page and coefficients stay two parameters: the page is written and goes on to the next
// routine as it is, and of the coefficients, which are read, each routine hands on another part.
#![tactic(auto)]

ghost use Rattle.std.specs.Prelude.{◌≡◌, ◌++◌, ◌≤◌, length, drop};
ghost use Rattle.rules.specs.Questions.{number_of};
ghost use Rattle.rules.specs.SheetAnswers.{seg_line, refused_output};
ghost use Rattle.sheet_bits.specs.Page.{HasRoom, Wrote};
ghost use Rattle.sheet_lines.specs.Output.{table_line, coefficients_of};

use rules::{PathRecord, SheetError};
use sheet_bits::{Page, put_coefficient};
use sheet_digits::put_number;

// J11: a segment's coefficients.
fn put_coefficients(page: &mut Page, coeffs: &[f64])
    requires { HasRoom page.old (coefficients_of coeffs.now) }
    ensures { Wrote page.old (coefficients_of coeffs.now) page.new }
{
    for x in coeffs {
        put_coefficient(page, *x);
    }
}

// J11: a segment's line: "axis, segment and the bits of each coefficient".
#[tactic(auto, using(crate::proofs::Lengths::length_line))]
pub fn put_segment(page: &mut Page, axis: usize, segment: usize, coeffs: &[f64])
    requires { HasRoom page.old (seg_line axis segment coeffs.now) }
    ensures { Wrote page.old (seg_line axis segment coeffs.now) page.new }
{
    put_number(page, b"(seg ", axis);
    put_number(page, b" ", segment);
    put_coefficients(page, coeffs);
    page.put_bytes(b")\n");
}

// J10: "order, segments, axes".
pub fn put_table_line(page: &mut Page, path: PathRecord)
    requires { HasRoom page.old (table_line path) }
    ensures { Wrote page.old (table_line path) page.new }
{
    put_number(page, b"(table ", path.order);
    put_number(page, b" ", path.segments);
    put_number(page, b" ", path.axes);
    page.put_bytes(b")\n");
}

// J12: a refusal, "number and byte place", and how many bytes that is. 42 bytes are enough for each.
#[tactic(auto, using(crate::proofs::Fits::most_refusal))]
pub fn write_refused(number: u32, at: usize, out: &mut [u8]) -> usize
    requires { 42 ≤ length out.old }
    ensures { let bytes = refused_output number at in
        (result ≡ length bytes) × (out.new ≡ bytes ++ drop (length bytes) out.old) }
{
    let mut page = Page::new(out);
    put_number(&mut page, b"(refused ", number as usize);
    put_number(&mut page, b" ", at);
    page.put_bytes(b")\n");
    page.at
}

// J12: the same of a refusal of the reader or the build.
pub fn write_refusal(refusal: SheetError, out: &mut [u8]) -> usize
    requires { 42 ≤ length out.old }
    ensures { let bytes = refused_output (number_of refusal.cause) refusal.at in
        (result ≡ length bytes) × (out.new ≡ bytes ++ drop (length bytes) out.old) }
{
    write_refused(u32::from(refusal.cause), refusal.at, out)
}
