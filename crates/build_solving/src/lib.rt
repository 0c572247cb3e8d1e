// Solving with a factored matrix of m rows (crates/build_factoring), of module 4 of document 01: forward (crates/build_forward), and
// then back, in the same way. What each function does is said by the definitions of crates/rules/specs/Solve.antt, for every m.
#![tactic(auto)]

ghost use Rattle.std.specs.Prelude.{◌≡◌, ◌*◌, ◌<◌, length};
ghost use Rattle.rules.specs.Solve.{solve, solve_matrix};
ghost use Rattle.build_products.specs.Columns.{transposed};
ghost use Rattle.build_forward.specs.Steps.{factors_of};
ghost use Rattle.build_solving.specs.Steps.{backward_step};

use build_forward::Factored;

// R17, R18: row k is solved by division, and its products are subtracted from the rows above.
// (It stays a loop with an index: column k's entries stand m apart, so that it would go over
// `y[..k].iter_mut().zip(matrix.entries[k..].iter().step_by(m))`.)
fn backward_step(matrix: &Factored, k: usize, y: &mut [f64])
    requires { (k < matrix.now.m) × (length y.old ≡ matrix.now.m) }
    ensures { y.new ≡ backward_step matrix.now.m matrix.now.entries.now y.old k }
{
    let m = matrix.m;
    let x = y[k] / matrix.entries[k * m + k];
    for i in 0..k {
        y[i] -= matrix.entries[i * m + k] * x;
    }
    y[k] = x;
}

// R17: "then back from the last by division": m numbers solved, from b into y.
pub fn solve(matrix: &Factored, b: &[f64], y: &mut [f64])
    requires { (length b.now ≡ matrix.now.m) × (length y.old ≡ matrix.now.m) }
    ensures { y.new ≡ solve matrix.now.m (factors_of matrix.now) b.now }
{
    matrix.forward(b, y);
    for k in (0..matrix.m).rev() {
        backward_step(matrix, k, y);
    }
}

// R10: a matrix solved, column by column, from c into out; both are kept by columns.
pub fn solve_matrix(matrix: &Factored, c: &[f64], out: &mut [f64])
    requires { (length c.now ≡ matrix.now.m * matrix.now.m) × (length out.old ≡ matrix.now.m * matrix.now.m) }
    ensures { out.new
        ≡ transposed matrix.now.m (solve_matrix matrix.now.m (factors_of matrix.now) (transposed matrix.now.m c.now)) }
{
    let m = matrix.m;
    for j in 0..m {
        let at = j * m;
        let end = at + m;
        solve(matrix, &c[at..end], &mut out[at..end]);
    }
}
