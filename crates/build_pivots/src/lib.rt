// The pivots of a matrix of m rows, and the exchange of its rows: of module 4 of document 01, below factoring. What each function
// does is said by the definitions of crates/rules/specs/Solve.antt, for every m.
//
// The matrix stays a list beside its m, and its length and that a row is below m stay clauses: a struct that holds m and the list as
// `&mut`, its length a ghost field, was tried here, and each method that changes an entry then promises `self.new.m ≡ self.old.m` and
// `self.new.a.ghost_name ≡ self.old.a.ghost_name` in the place of the one clause on the length, while `k < m` is as before.
#![tactic(auto)]

ghost use Rattle.std.specs.Prelude.{◌≡◌, suc, ◌+◌, ◌-◌, ◌*◌, ◌≤◌, ◌<◌, length};
ghost use Rattle.law_lists.specs.Lists.{listed};
ghost use Rattle.rules.specs.Solve.{entry, pivot_row, exchange, matrix};

// R12: "greatest magnitude at or below the diagonal, first of equals": its row.
pub fn pivot_row(m: usize, a: &[f64], k: usize) -> usize
    requires { (k < m) × (length a.now ≡ m * m) }
    ensures { (result ≡ pivot_row m a.now k (m - suc k)) × (k ≤ result) × (result < m) }
{
    let mut best = k;
    for next in k + 1..m {
        if a[best * m + k].abs() < a[next * m + k].abs() {
            best = next;
        }
    }
    best
}

// R13: the entries of the rows k and p exchanged.
pub fn exchange_entries(m: usize, a: &mut [f64], k: usize, p: usize)
    requires { (k < m) × (p < m) × (length a.old ≡ m * m) }
    ensures { a.new ≡ matrix m m (λ i j. entry m a.old (exchange k p i) j) }
{
    for j in 0..m {
        a.swap(k * m + j, p * m + j);
    }
}

// Each row is its own at the start. (R13's rows stay a list of numbers, as in the definitions: which row of the matrix each row was is a
// permutation, and one kept as pairs or as exchanges would be numbers of rows too.)
pub fn identity(rows: &mut [usize])
    ensures { rows.new ≡ listed (length rows.old) (λ i. i) }
{
    for (i, row) in rows.iter_mut().enumerate() {
        *row = i;
    }
}
