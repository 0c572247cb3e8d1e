// From the numbers that were read of a job sheet to the library's own build. What is read stands in crates/sheet_record, and
// crates/sheet_columns makes of it what a build takes. No line of the build stands here: crates/build builds.
#![tactic(auto)]

ghost use Rattle.std.specs.Prelude.{◌≡◌, ◌++◌, min, length, take, drop};
ghost use Rattle.rules.specs.Build.{build_answered, build_answer, buffer_after};
ghost use Rattle.rules.specs.Sheets.{Sheet};
ghost use Rattle.rules.specs.SheetAnswers.{sheet_input, cells_of};
ghost use Rattle.sheet_record.specs.ReadOf.{IsReadOf};

use rules::{PathError, PathRecord};
use sheet_columns::{NUMBERS_ROOM, WAYPOINTS_ROOM};
use sheet_record::SheetRead;

// J9, J13: the build. The table goes into the first cells of the buffer, and the others stay, so only a buffer that is too short is
// of another length.
pub fn build_read(read: SheetRead, coeffs: &mut [f64]) -> Result<PathRecord, PathError>
    ensures { (s : Sheet) → IsReadOf s read.entry
        → let b = sheet_input s in
        let before = coeffs.old in
        (build_answered result ≡ build_answer b (min (length before) (cells_of b)))
        × (coeffs.new ≡ buffer_after b (take (cells_of b) before) ++ drop (cells_of b) before) }
{
    let mut waypoints = [0.0; WAYPOINTS_ROOM];
    let mut first = [0.0; NUMBERS_ROOM];
    let mut last = [0.0; NUMBERS_ROOM];
    let input = sheet_columns::input(read, &mut waypoints, &mut first, &mut last);
    let cells = sheet_config::cells_of(read.numbers);
    let room = coeffs.len().min(cells);
    build::from_waypoints_view(input, &mut coeffs[..room])
}
