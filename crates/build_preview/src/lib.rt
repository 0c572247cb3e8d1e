// V8: ask before the build: what it would answer, without a buffer. The build is this and then the filling (crates/build), so no
// question is asked and no record is made in a second place.
#![tactic(auto)]

ghost use Rattle.std.specs.Prelude.{◌≡◌};
ghost use Rattle.rules.specs.Build.{given_by, build_answered, build_answer};

use build_questions::build_questions;
use build_records::accepted;
use rules::{PathError, PathRecord, SplineInput};

// A1, V1, V2, V3, V4, V7: the number and the record that a build would give, given the same and a buffer of so many cells. The length
// is any number, also one that no buffer has. Nothing is lent that could be written to.
#[tactic(auto, using(crate::proofs::Answer::by_questions))]
pub fn preview(input: SplineInput, cells: usize) -> Result<PathRecord, PathError>
    ensures { build_answered result ≡ build_answer (given_by input.entry) cells }
{
    build_questions(input, cells)?;
    Ok(accepted(input))
}
