// A path: its record beside the coefficients that it was lent, so that a caller hands over one thing. Each
// function is thin and takes any operands; the work is the query's.
#![tactic(auto)]

ghost use Rattle.std.specs.Prelude.{◌≡◌};
ghost use Rattle.rules.specs.Questions.{number_answered};
ghost use Rattle.rules.specs.Query.{Queried, query_of};
ghost use Rattle.query_levels.specs.Lent.{behind, SameBuffers};

use query_levels::Buffers;
use rules::{PathError, PathParam, PathRecord};

// F7: the record, and the coefficients that it was lent.
#[derive(Clone, Copy)]
pub struct SplinePath<'a> {
    pub path: PathRecord,
    pub coeffs: &'a [f64],
}

impl<'a> SplinePath<'a> {
    // A1, F7: the record and the coefficients as they are. Whether they fit each other is asked at each query.
    pub fn new(path: PathRecord, coeffs: &'a [f64]) -> SplinePath<'a>
        ensures { result ≡ record { path = path; coeffs = coeffs.entry } }
    {
        SplinePath { path, coeffs }
    }

    // A1, F7: the query, of this path. (The level stays a number, as crates/query says.)
    pub fn eval_at(self, s: PathParam, level: u8, buffers: &mut Buffers) -> Result<(), PathError>
        ensures queried { Queried (query_of self.entry.path self.entry.coeffs.now s level)
            (behind buffers.old)
            (number_answered result)
            (behind buffers.new) }
        ensures same_buffers { SameBuffers buffers.old buffers.new }
    {
        query::eval_at(self.path, self.coeffs, s, level, buffers)
    }
}

// A1: the query for a caller that holds a record and coefficients: its parameters stay plain, as those of crates/query.
pub fn eval_path(
    path: PathRecord,
    coeffs: &[f64],
    s: PathParam,
    level: u8,
    buffers: &mut Buffers,
) -> Result<(), PathError>
    ensures queried { Queried (query_of path coeffs.now s level) (behind buffers.old) (number_answered result) (behind buffers.new) }
    ensures same_buffers { SameBuffers buffers.old buffers.new }
{
    SplinePath::new(path, coeffs).eval_at(s, level, buffers)
}
