// The query, module 6 of document 01: where a path is at s, and its derivatives there. The lookup and the
// evaluation are crates of their own.
#![tactic(auto)]

ghost use Rattle.rules.specs.Questions.{number_answered};
ghost use Rattle.rules.specs.Query.{Queried, query_of};
ghost use Rattle.query_levels.specs.Lent.{behind, SameBuffers};

use query_axes::eval_axes;
use query_levels::Buffers;
use query_lookup::segment_tau;
use query_questions::query_questions;
use rules::{PathError, PathParam, PathRecord};

// A1, D1, F9, Q12: the query. Every call is answered: served, and the buffers that the level writes hold the derivatives of each
// axis; or refused by the first question that says no, and all four buffers are as they were. (The parameters stay plain: document 01
// asks for thin functions of the struct that holds the record beside the coefficients, crates/query_path, and they call this one. The level
// stays a number, since a caller may give any and is answered.)
pub fn eval_at(
    path: PathRecord,
    coeffs: &[f64],
    s: PathParam,
    level: u8,
    buffers: &mut Buffers,
) -> Result<(), PathError>
    ensures queried { Queried (query_of path coeffs.now s level) (behind buffers.old) (number_answered result) (behind buffers.new) }
    ensures same_buffers { SameBuffers buffers.old buffers.new }
{
    let level = query_questions(path, coeffs.len(), level, buffers.lengths())?;
    let at = segment_tau(path, s)?;
    eval_axes(path, coeffs, at, level, buffers);
    Ok(())
}
