// Document 01's questions before a query, all but the last, which the lookup answers; see the crate `query_lookup`. They look
// at lengths alone, so that they can be asked without a buffer.
#![tactic(auto)]

ghost use Rattle.std.specs.Prelude.{◌≡◌, ◌≤◌, ◌++◌, IfOk};
ghost use Rattle.rules.specs.Questions.{first_no, number_answered};
ghost use Rattle.rules.specs.Query.{valid_path_range, path_questions, buffer_questions};
ghost use Rattle.query_levels.specs.Levels.{level_number, lengths};

use query_levels::{Lengths, Level};
use rules::{PathError, PathRecord};

// Q3: "at most 256"
const MOST_SEGMENTS: usize = 256;

// Q5, Q6: the range, and its quotient.
fn valid_path_range(path: PathRecord) -> bool
    requires { path.segments ≤ 256 }
    ensures { result ≡ valid_path_range path }
{
    questions::valid_range(path.segments, path.s_min, path.s_max)
        && path.inv_ds == questions::inv_ds(path.segments, path.s_min, path.s_max)
}

// Q1 to Q7: about a path with so many coefficients. The first no is the refusal.
#[tactic(auto, unfolding(rules::specs::Questions::first_no, rules::specs::Query::path_questions))]
fn path_questions(path: PathRecord, cells: usize) -> Result<(), PathError>
    ensures { number_answered result ≡ first_no (path_questions path cells) }
{
    if !questions::valid_order(path.order) {
        return Err(PathError::InvalidOrder); // Q1
    }
    if path.segments < 1 {
        return Err(PathError::NotEnoughWaypoints); // Q2
    }
    if MOST_SEGMENTS < path.segments {
        return Err(PathError::InvalidLength); // Q3
    }
    if !questions::valid_axes(path.axes) {
        return Err(PathError::InvalidDimension); // Q4
    }
    if !valid_path_range(path) {
        return Err(PathError::InvalidRange); // Q5, Q6
    }
    if cells != path.axes * path.segments * (path.order + 1) {
        return Err(PathError::DimensionMismatch); // Q7
    }
    Ok(())
}

// G4: the first no is the refusal; where all but the last question say yes, the level is handed on. (The level stays a number beside the
// path: a caller gives any, and here it becomes a `Level` or is refused.)
#[tactic(auto, unfolding(rules::specs::Questions::first_no, rules::specs::Query::buffer_questions))]
pub fn query_questions(
    path: PathRecord,
    cells: usize,
    level: u8,
    n: Lengths,
) -> Result<Level, PathError>
    ensures number { number_answered result
        ≡ first_no (path_questions path cells ++ buffer_questions path.axes level (lengths n)) }
    ensures level { IfOk result (λ known. level_number known ≡ level) }
{
    path_questions(path, cells)?;
    let known = Level::try_from(level)?; // Q8
    if !n.valid(path.axes, level) {
        return Err(PathError::InvalidLength); // Q9
    }
    Ok(known)
}
