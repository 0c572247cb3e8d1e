// The forward half of solving with a factored matrix of m rows (crates/build_factoring), of module 4 of document 01: "each number
// once found, its products are subtracted one at a time from the rows still to be solved". What each function does is said by the
// definitions of crates/rules/specs/Solve.antt, for every m.
//
// That a right side has m numbers stays a clause: it joins the matrix and a list that is a part of a longer one, and a struct of both
// would hold a `&mut`, whose methods would promise too that it still lends the same list (crates/build_pivots).
#![tactic(auto)]

ghost use Rattle.std.specs.Prelude.{◌≡◌, ◌*◌, ◌<◌, length};
ghost use Rattle.build_products.specs.Columns.{Below};

// A factored matrix of m rows, lent to be solved with: its entries, and which row of the matrix each row was.
// (The rows stay a list of numbers, as crates/build_pivots says; and m stays beside the lists: as `rows.len()` it would stand in each
// promise as `length rows.now`, where the definitions say m.)
#[derive(Clone, Copy)]
pub struct Factored<'a> {
    pub m: usize,
    pub entries: &'a [f64],
    pub rows: &'a [usize],
    pub ghost entries_length: { length entries.now ≡ m * m },
    pub ghost rows_length: { length rows.now ≡ m },
    pub ghost rows_below: { Below m rows.now },
}

impl Factored<'_> {
    ghost use Rattle.std.specs.Prelude.{◌≡◌, ◌<◌, length};
    ghost use Rattle.rules.specs.Solve.{forward};
    ghost use Rattle.build_forward.specs.Steps.{factors_of, forward_step};

    // The right side with its rows exchanged. (It stays a loop with an index: `for (x, row) in out.iter_mut().zip(self.rows)` was tried,
    // and the proof does not close, since of what is lent inside a zip it knows no more than the length afterwards.)
    fn exchange_rows(&self, b: &[f64], out: &mut [f64])
        requires { (length b.now ≡ self.now.m) × (length out.old ≡ self.now.m) }
        ensures { out.new ≡ forward self.now.m (factors_of self.now) b.now 0 }
    {
        for (i, row) in self.rows.iter().enumerate() {
            out[i] = b[*row];
        }
    }

    // R16, R18: the number of row k is found: its products are subtracted from the rows below.
    // (It stays a loop with an index: column k's entries stand m apart, so that it would go over
    // `y[k + 1..].iter_mut().zip(self.entries[k..].iter().step_by(self.m).skip(k + 1))`.)
    fn forward_step(&self, k: usize, y: &mut [f64])
        requires { (k < self.now.m) × (length y.old ≡ self.now.m) }
        ensures { y.new ≡ forward_step self.now.m self.now.entries.now y.old k }
    {
        let x = y[k];
        for i in k + 1..self.m {
            y[i] -= self.entries[i * self.m + k] * x;
        }
    }

    // R16: "Solve forward from the first row".
    pub fn forward(&self, b: &[f64], y: &mut [f64])
        requires { (length b.now ≡ self.now.m) × (length y.old ≡ self.now.m) }
        ensures { y.new ≡ forward self.now.m (factors_of self.now) b.now self.now.m }
    {
        self.exchange_rows(b, y);
        for k in 0..self.m {
            self.forward_step(k, y);
        }
    }
}
