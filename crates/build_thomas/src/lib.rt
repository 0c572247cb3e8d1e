// One axis of a build by the block-Thomas algorithm, module 5 of document 01: the numbers of its inner nodes (crates/build_sweeps),
// and its segments written from them. What its functions are held to stands in crates/rules/specs/Build.antt.
#![tactic(auto)]

ghost use Rattle.std.specs.Prelude.{◌≡◌, ◌+◌, ◌≤◌, length};
ghost use Rattle.law_lists.specs.Lists.{joined};
ghost use Rattle.build_sweeps.specs.OfAxis.{inner_length, coefficients_of};
ghost use Rattle.build_thomas.specs.Row.{axis_cells, segment_of};

use build_plan::BoundaryNumbers;
use build_segments::{numbers_of_node, write_segment_coeffs_with};
use build_sweeps::Axis;

// B14: the n + 1 segments, from the numbers of the inner nodes. (It stays a function of its own: it prints nothing, and fills numbers.)
fn write_segments(axis: &Axis, solved: &[f64], chunk: &mut [f64])
    requires { (inner_length axis.now ≤ length solved.now) × (length chunk.old ≡ axis_cells axis.now) }
    ensures { chunk.new ≡ joined (axis.now.nodes.now.n + 1) (segment_of axis.now solved.now) }
{
    let points = axis.points;
    let ends = BoundaryNumbers {
        tables: axis.nodes.tables,
        n: axis.nodes.n,
        numbers: axis.numbers,
    };
    let width = 2 * ends.tables.m + 2;
    for i in 0..ends.n + 1 {
        let at = i * width;
        write_segment_coeffs_with(
            ends.tables,
            points.waypoint(i),
            points.dy(i),
            numbers_of_node(ends, solved, i),
            numbers_of_node(ends, solved, i + 1),
            &mut chunk[at..at + width],
        );
    }
}

// An axis's coefficients. `solved` has room for the numbers of the inner nodes.
pub fn thomas_row(axis: &Axis, solved: &mut [f64], chunk: &mut [f64])
    requires { (inner_length axis.now ≤ length solved.old) × (length chunk.old ≡ axis_cells axis.now) }
    ensures { chunk.new ≡ coefficients_of axis.now }
{
    axis.inner_numbers(solved);
    write_segments(axis, solved, chunk);
}
