// The evaluation of all axes in one segment: the position and the derivatives that a level writes.
#![tactic(auto)]

ghost use Rattle.std.specs.Prelude.{◌≡◌, true, cond, ◌<◌, length, set};
ghost use Rattle.rules.specs.Query.{writes, lengths_of};
ghost use Rattle.query_levels.specs.Levels.{level_number};
ghost use Rattle.query_levels.specs.Lent.{behind, SameBuffers};
ghost use Rattle.query_axes.specs.Evaluation.{Evaluable, Evaluated};

use query_levels::{Buffers, Level};
use query_poly::eval_poly;
use rules::{PathRecord, SegmentTau};

// Q13, Q14: derivative k of an axis goes to its buffer, where the level writes that.
fn put(level: Level, k: u8, cells: &mut [f64], axis: usize, x: f64)
    requires { writes (level_number level) k ≡ true → axis < length cells.old }
    ensures { cells.new ≡ cond (writes (level_number level) k) (set cells.old axis x) cells.old }
{
    if level.writes(k) {
        cells[axis] = x;
    }
}

// R28: the derivatives of every axis in one segment at tau, per unit of s. No derivative is evaluated that the
// level does not write. (The path and its coefficients stay two parameters: `eval_at` has them so, and a struct of both would be made
// for this call.)
pub fn eval_axes(
    path: PathRecord,
    coeffs: &[f64],
    at: SegmentTau,
    level: Level,
    buffers: &mut Buffers,
)
    requires { Evaluable path coeffs.now at.segment (level_number level) (lengths_of (behind buffers.old)) }
    ensures evaluated { Evaluated path coeffs.now at.segment at.tau.0 (level_number level) (behind buffers.old) (behind buffers.new) }
    ensures same_buffers { SameBuffers buffers.old buffers.new }
{
    let inv_ds = path.inv_ds;
    let inv_ds2 = inv_ds * inv_ds;
    let inv_ds3 = inv_ds2 * inv_ds;
    let count = path.order + 1;
    for axis in 0..path.axes {
        let from = (axis * path.segments + at.segment) * count;
        let d = eval_poly(path.order, level, &coeffs[from..from + count], at.tau.0);
        buffers.q[axis] = d.q;
        put(level, 1, buffers.dq, axis, d.dq * inv_ds);
        put(level, 2, buffers.ddq, axis, d.ddq * inv_ds2);
        put(level, 3, buffers.dddq, axis, d.dddq * inv_ds3);
    }
}
