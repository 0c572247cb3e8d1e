// "Factoring (Golub and Van Loan, partial pivoting)" in place: the upper factor on and above the
// diagonal, the multipliers below it, and beside them which row of the matrix each row was.
// The matrix stays a list beside its m, and its length and that a row is below m stay clauses, as crates/build_pivots says: with a struct
// that lends the list as `&mut`, `eliminate_row` and `eliminate` would promise too that m and the list are still the same.
#![tactic(auto)]

ghost use Rattle.std.specs.Prelude.{◌≡◌, ◌+◌, ◌-◌, ◌*◌, ◌<◌, List, [], length, Float};
ghost use Rattle.build_factoring.specs.Steps.{eliminated_to};
ghost use Rattle.rules.specs.Solve.{eliminated, factor};

use build_pivots::{exchange_entries, identity, pivot_row};

// R14, R15: row i past row k: the multiplier takes the place of the entry in column k, and what it comes to is
// subtracted from the entries to the right. Whatever matrix b was done in the rows before i, is then
// done in row i too.
fn eliminate_row(m: usize, a: &mut [f64], k: usize, i: usize, reciprocal: f64)
    requires { (k < i) × (i < m) × (length a.old ≡ m * m) }
    ensures { (b : List Float) → length b ≡ m * m
        → a.old ≡ eliminated_to m k reciprocal b i
        → a.new ≡ eliminated_to m k reciprocal b (i + 1) }
{
    let multiplier = a[i * m + k] * reciprocal;
    a[i * m + k] = multiplier;
    for j in k + 1..m {
        a[i * m + j] -= multiplier * a[k * m + j];
    }
}

// R14: "multipliers are entry times the rounded reciprocal of the pivot": one division for the column.
fn eliminate(m: usize, a: &mut [f64], k: usize)
    requires { (k < m) × (length a.old ≡ m * m) }
    ensures { a.new ≡ (eliminated m k (record { entries = a.old; rows = [] })).entries }
{
    let reciprocal = 1.0 / a[k * m + k];
    for i in k + 1..m {
        eliminate_row(m, a, k, i, reciprocal);
    }
}

// The matrix factored in place. A zero pivot would stop nothing: the steps go on as the rules of floats say.
// (R13's rows stay a list of numbers, as crates/build_pivots says.)
pub fn factor(m: usize, a: &mut [f64], rows: &mut [usize])
    requires { (length a.old ≡ m * m) × (length rows.old ≡ m) }
    ensures { (a.new ≡ (factor m a.old).entries)
        × (rows.new ≡ (factor m a.old).rows) }
{
    identity(rows);
    for k in 0..m {
        let p = pivot_row(m, a, k);
        exchange_entries(m, a, k, p);
        rows.swap(k, p);
        eliminate(m, a, k);
    }
}
