// The table of a build: the lists per node, which factoring and filling (crates/build_axes) are lent.
#![tactic(auto)]

ghost use Rattle.std.specs.Prelude.{◌≡◌, ◌*◌, ◌≤◌, length};
ghost use Rattle.theorem_pivots.specs.Repeating.{distinct};
ghost use Rattle.build_filling.specs.AllAxes.{cells_of, all_axes};

use build_plan::Plan;

// Lists for so many entries of the matrices that differ, so many of their rows, and so many numbers of the inner nodes.
// (Plan and buffer stay two parameters, and the buffer's length stays a clause: a struct of both would hold the buffer as `&mut`, and be
// made once, for three functions that hand it on; as `&mut self` each would promise too that it still lends the same list.)
#[inline(never)]
fn fill_with<const ENTRIES: usize, const ROWS: usize, const NUMBERS: usize>(
    plan: &Plan,
    coeffs: &mut [f64],
)
    requires { (length coeffs.old ≡ cells_of plan.now)
        × (distinct plan.now.m plan.now.n * (plan.now.m * plan.now.m) ≤ ENTRIES)
        × (distinct plan.now.m plan.now.n * plan.now.m ≤ ROWS)
        × (plan.now.n * plan.now.m ≤ NUMBERS)
        × (ENTRIES ≤ 819)
        × (ROWS ≤ 273)
        × (NUMBERS ≤ 765) }
    ensures { coeffs.new ≡ all_axes plan.now }
{
    let mut entries = [0.0; ENTRIES];
    let mut rows = [0; ROWS];
    let mut solved_c = [0.0; ENTRIES];
    let mut solved = [0.0; NUMBERS];
    build_axes::solve_general_thomas(
        plan,
        &mut entries,
        &mut rows,
        &mut solved_c,
        &mut solved,
        coeffs,
    );
}

// F10: "Lists per node: fixed arrays for 255 nodes", whose matrices the first 91 have all. A curve with fewer nodes has
// shorter ones, since an array is set to zero before it is used; two points have no inner node.
// (Plan and buffer stay two parameters, and the buffer's length stays a clause, as above; and the tests stay, since lengths of arrays are
// const parameters, and no number becomes one.)
pub fn fill(plan: &Plan, coeffs: &mut [f64])
    requires { length coeffs.old ≡ cells_of plan.now }
    ensures { coeffs.new ≡ all_axes plan.now }
{
    if plan.n == 0 {
        fill_with::<1, 1, 1>(plan, coeffs);
    } else if plan.n <= 30 {
        fill_with::<270, 90, 90>(plan, coeffs);
    } else {
        fill_with::<819, 273, 765>(plan, coeffs);
    }
}
