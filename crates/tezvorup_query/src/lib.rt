// What C and Rust call to read position and derivatives off a curve. It is thin and takes any operands; what its record stands
// for is in crates/tezvorup_records.
#![tactic(auto)]

ghost use Rattle.rules.specs.Query.{buffers, Queried, query_of};
ghost use Rattle.tezvorup_records.specs.Meaning.{path_of};

use query_levels::Buffers;
use rules::{PathParam, PathRecord, number_answered};
use tezvorup_records::RawPath;

// A1: the query (document 01, module 6). The buffers are written where the answer is 0, and of those the ones that the level
// writes. (The eight parameters, the level and the answer stay as the header has them for C.)
#[unsafe(no_mangle)]
pub extern "C" fn spline_query(
    path: RawPath,
    coefficients: &[f64],
    s: f64,
    level: u8,
    q: &mut [f64],
    dq: &mut [f64],
    ddq: &mut [f64],
    dddq: &mut [f64],
) -> u32
    ensures { Queried (query_of (path_of path) coefficients.now (record { 0 = s }) level)
        (buffers q.old dq.old ddq.old dddq.old)
        result
        (buffers q.new dq.new ddq.new dddq.new) }
{
    let path = PathRecord::from(path);
    let mut buffers = Buffers { q, dq, ddq, dddq };
    let answer = query::eval_at(path, coefficients, PathParam(s), level, &mut buffers);
    number_answered(answer)
}
