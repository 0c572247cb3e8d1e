// The coefficients of all axes, one axis after the other, into the caller's table. Every question is answered before
// (crates/build_questions).
#![tactic(auto)]

ghost use Rattle.std.specs.Prelude.{◌≡◌, ◌+◌, ◌≤◌, ◌<◌, length};
ghost use Rattle.build_filling.specs.AllAxes.{BothEnds, FillLent, all_axes};

use build_plan::Plan;
use build_rhs::AxisWaypoints;
use build_sweeps::{Axis, NodeMatrices};
use build_thomas::thomas_row;

// B12: the m numbers of an axis's first node, and then those of its last: of the start state, and of the end state.
fn both_ends(plan: &Plan, axis: usize, numbers: &mut [f64])
    requires { (axis < plan.now.axes) × (plan.now.m + plan.now.m ≤ length numbers.old) }
    ensures { BothEnds plan.now axis numbers.new }
{
    let m = plan.m;
    let axes = plan.axes;
    let inv_ds = plan.inv_ds;
    let start = plan.start;
    let end = plan.end;
    start.axis_numbers(axes, inv_ds, axis, &mut numbers[..m]);
    end.axis_numbers(axes, inv_ds, axis, &mut numbers[m..m + m]);
}

// B14: all axes, one after the other, in the place of what the buffer held.
// (Plan and buffer stay two parameters, as crates/build_table says.)
pub fn fill_axes(plan: &Plan, nodes: &NodeMatrices, solved: &mut [f64], coeffs: &mut [f64])
    requires { FillLent plan.now nodes.now solved.old coeffs.old }
    ensures { coeffs.new ≡ all_axes plan.now }
{
    let axes = plan.axes;
    let waypoints = plan.waypoints;
    let stride = (plan.n + 1) * (2 * plan.m + 2);
    for axis in 0..axes {
        let at = axis * stride;
        let mut numbers = [0.0; 6];
        both_ends(plan, axis, &mut numbers);
        let points = AxisWaypoints {
            axes,
            axis,
            waypoints,
        };
        let this = Axis {
            nodes: &*nodes, // lent again, for this axis alone
            points,
            numbers: &numbers,
        };
        thomas_row(&this, solved, &mut coeffs[at..at + stride]);
    }
}
