// Sums of products, left to right, and what is subtracted by them: of module 4 of document 01. What each function does is said by
// the definitions of crates/rules/specs/Solve.antt, for every m.
//
// A matrix to be factored is a list, row by row, as in the definitions. One that is only multiplied
// with, or solved with column by column, is kept by columns: `transposed`.
#![tactic(auto)]

ghost use Rattle.std.specs.Prelude.{◌≡◌, ◌+◌, ◌*◌, ◌≤◌, ◌<◌, length};
ghost use Rattle.rules.specs.Floats.{◌⊗◌, ◌!◌, sum_of};
ghost use Rattle.rules.specs.Solve.{times, minus};
ghost use Rattle.build_products.specs.Columns.{transposed};

// R3: the sum of the products: the numbers of a from `at` on, each `step` behind the one before, times those of v.
// (`at` stays a number: it is no length, but the place of the first, and with a slice `&a[at..]` each caller's promise would speak of what is
// left of its list behind a place, where the definitions speak of the list. The loop's place stays counted by hand: with `step_by` and `zip`
// the proof would know of a what is left of it, and would have to count each place back from there.)
pub fn dot(a: &[f64], at: usize, step: usize, v: &[f64]) -> f64
    requires { (1 ≤ length v.now) × (at + (length v.now * step) < length a.now + step) }
    ensures { result ≡ sum_of (length v.now) (λ j. a.now ! (at + j * step) ⊗ v.now ! j) }
{
    let mut total = a[at] * v[0];
    let mut place = at;
    for x in &v[1..] {
        place += step;
        total += a[place] * x;
    }
    total
}

// v − a·u, where a is kept by columns.
// (m stays a parameter, and the lengths and `1 ≤ m` stay clauses: the lists are parts of longer ones, so a struct for each would be made
// anew at each call, with the same to show; and with `u.len()` for m the promise would say `length u.now`, where the definitions say m.)
pub fn subtract_product(m: usize, a: &[f64], u: &[f64], v: &mut [f64])
    requires { (1 ≤ m) × (length a.now ≡ m * m) × (length u.now ≡ m) × (length v.old ≡ m) }
    ensures { v.new ≡ minus m v.old (times m (transposed m a.now) u.now) }
{
    for (i, x) in v.iter_mut().enumerate() {
        *x -= dot(a, i, m, u);
    }
}
