// The questions before a build, asked of what was read of a job sheet. What is read stands in crates/sheet_record, and
// crates/sheet_columns makes of it what a build takes.
#![tactic(auto)]

ghost use Rattle.std.specs.Prelude.{◌≡◌};
ghost use Rattle.rules.specs.Questions.{number_answered};
ghost use Rattle.rules.specs.Build.{build_number};
ghost use Rattle.rules.specs.Sheets.{Sheet};
ghost use Rattle.rules.specs.SheetAnswers.{sheet_input, cells_of};
ghost use Rattle.sheet_record.specs.ReadOf.{IsReadOf};

use rules::PathError;
use sheet_columns::{NUMBERS_ROOM, WAYPOINTS_ROOM};
use sheet_record::SheetRead;

// J25: what a build into a table of the right length asks first, as the number that it answers. It needs no table.
pub fn number_of(read: SheetRead) -> Result<(), PathError>
    ensures { (s : Sheet) → IsReadOf s read.entry
        → number_answered result ≡ build_number (sheet_input s) (cells_of (sheet_input s)) }
{
    let mut waypoints = [0.0; WAYPOINTS_ROOM];
    let mut first = [0.0; NUMBERS_ROOM];
    let mut last = [0.0; NUMBERS_ROOM];
    let input = sheet_columns::input(read, &mut waypoints, &mut first, &mut last);
    build_questions::build_questions(input, sheet_config::cells_of(read.numbers))
}
