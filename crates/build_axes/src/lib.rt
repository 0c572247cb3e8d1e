// All axes of a build: the inner nodes' matrices are factored, and the coefficients filled in with them. Every question is
// answered before (crates/build_questions).
#![tactic(auto)]

ghost use Rattle.std.specs.Prelude.{◌≡◌, ◌*◌, ◌≤◌, length};
ghost use Rattle.theorem_pivots.specs.Repeating.{distinct};
ghost use Rattle.build_nodes.specs.NodeLists.{Room};
ghost use Rattle.build_filling.specs.AllAxes.{cells_of, all_axes};

use build_filling::fill_axes;
use build_nodes::factor_nodes_with;
use build_plan::Plan;
use build_settled::distinct;
use build_sweeps::NodeMatrices;

// Z3: the matrices that differ are factored once, for all axes, into the lists that are lent for them. No pivot is zero
// (`PivotsAreNeverZero` of crates/theorem_pivots), so nothing is refused here.
// (The three lists of the nodes stay three: they are lent to factoring as `&mut` and then held by `NodeMatrices` as `&`, and a struct of
// the three would only be taken apart for both. The rows stay a list of numbers, as crates/build_pivots says. Plan and buffer stay two
// parameters, and the buffer's length stays a clause, as crates/build_table says.)
pub fn solve_general_thomas(
    plan: &Plan,
    entries: &mut [f64],
    rows: &mut [usize],
    solved_c: &mut [f64],
    solved: &mut [f64],
    coeffs: &mut [f64],
)
    requires { (length coeffs.old ≡ cells_of plan.now)
        × Room plan.now.m (distinct plan.now.m plan.now.n) entries.old rows.old solved_c.old
        × (plan.now.n * plan.now.m ≤ length solved.old) }
    ensures { coeffs.new ≡ all_axes plan.now }
{
    let m = plan.m;
    let n = plan.n;
    let tables = build_tables::for_order(m);
    factor_nodes_with(&tables, distinct(m, n), entries, rows, solved_c);
    let nodes = NodeMatrices {
        tables: &tables,
        n,
        entries,
        rows,
        solved_c,
    };
    fill_axes(plan, &nodes, solved, coeffs);
}
