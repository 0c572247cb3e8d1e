// The program's output for a table, written byte for byte into a buffer that is lent: that of crates/rules/specs/SheetAnswers.antt.
// Its lines are written by crates/sheet_lines. (Printing stays by hand, as crates/sheet_bits says; page and coefficients stay two
// parameters, as crates/sheet_lines says, and so do path and coefficients: `SplinePath` is the query's, and a struct of both would be made
// for one table.)
#![tactic(auto)]

ghost use Rattle.std.specs.Prelude.{◌≡◌, ◌++◌, ◌+◌, ◌*◌, ◌≤◌, length, drop};
ghost use Rattle.rules.specs.SheetAnswers.{table_output, most_bytes};
ghost use Rattle.sheet_bits.specs.Page.{HasRoom, Wrote};
ghost use Rattle.sheet_lines.specs.Output.{axis_lines};

use rules::PathRecord;
use sheet_bits::Page;
use sheet_lines::{put_segment, put_table_line};

// J11: an axis's segments.
fn put_axis(page: &mut Page, path: PathRecord, axis: usize, coeffs: &[f64])
    requires { (path.order ≤ 7) × ((axis * path.segments + path.segments) * (path.order + 1) ≤ length coeffs.now)
        × HasRoom page.old (axis_lines path coeffs.now axis) }
    ensures { Wrote page.old (axis_lines path coeffs.now axis) page.new }
{
    let segments = path.segments;
    let cells = path.order + 1;
    for segment in 0..segments {
        let from = (axis * segments + segment) * cells;
        put_segment(page, axis, segment, &coeffs[from..from + cells]);
    }
}

// J10, J11: a table, and how many bytes that is.
pub fn write_table(path: PathRecord, coeffs: &[f64], out: &mut [u8]) -> usize
    requires { (path.order ≤ 7) × (path.segments ≤ 256) × (path.axes ≤ 8)
        × (path.axes * path.segments * (path.order + 1) ≤ length coeffs.now)
        × (most_bytes ≤ length out.old) }
    ensures { (result ≡ length (table_output path coeffs.now))
        × (out.new ≡ table_output path coeffs.now ++ drop (length (table_output path coeffs.now)) out.old) }
{
    let mut page = Page::new(out);
    put_table_line(&mut page, path);
    for axis in 0..path.axes {
        put_axis(&mut page, path, axis, coeffs);
    }
    page.at
}
