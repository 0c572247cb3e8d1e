// The tables of document 01, as the source's `BlockMatrices` has them.
#![tactic(auto)]

ghost use Rattle.std.specs.Prelude.{◌≡◌, ◌≤◌};
ghost use Rattle.build_products.specs.Columns.{HoldsA, HoldsB, HoldsC, HoldsR, HoldsH};

// For an m: A and C by columns, which is how products and solving go through them, B, R and H by rows.
// (m stays beside the lists: they have m × m, m × 2 and (m + 1) × (1 + 2m) numbers, and m would have to be found from one of these.)
#[derive(Clone, Copy)]
pub struct BlockMatrices {
    pub m: usize,
    pub a: &'static [f64],
    pub b: &'static [f64],
    pub c: &'static [f64],
    pub r: &'static [f64],
    pub h_coeff: &'static [f64],
    pub ghost some: { 1 ≤ m },
    pub ghost few: { m ≤ 3 },
    pub ghost holds_a: { HoldsA m a.now },
    pub ghost holds_b: { HoldsB m b.now },
    pub ghost holds_c: { HoldsC m c.now },
    pub ghost holds_r: { HoldsR m r.now },
    pub ghost holds_h: { HoldsH m h_coeff.now },
}

// T1: the tables of m = 1.
const M1: BlockMatrices = BlockMatrices {
    m: 1,
    a: &[1.0],
    b: &[4.0],
    c: &[1.0],
    r: &[3.0, 3.0],
    h_coeff: &[3.0, -2.0, -1.0, -2.0, 1.0, 1.0],
};

// T2: the tables of m = 2.
const M2: BlockMatrices = BlockMatrices {
    m: 2,
    a: &[-4.0, -7.0, -1.0, -2.0],
    b: &[0.0, 6.0, -16.0, 0.0],
    c: &[4.0, -7.0, -1.0, 2.0],
    r: &[-10.0, 10.0, -15.0, -15.0],
    h_coeff: &[
        10.0, -6.0, -3.0, -4.0, 1.0, -15.0, 8.0, 3.0, 7.0, -2.0, 6.0, -3.0, -1.0, -3.0, 1.0,
    ],
};

// T3: the tables of m = 3.
const M3: BlockMatrices = BlockMatrices {
    m: 3,
    a: &[15.0, 39.0, 34.0, 5.0, 14.0, 13.0, 1.0, 3.0, 3.0],
    b: &[40.0, 0.0, 8.0, 0.0, -40.0, 0.0, 72.0, 0.0, 8.0],
    c: &[15.0, -39.0, 34.0, -5.0, 14.0, -13.0, 1.0, -3.0, 3.0],
    r: &[35.0, 35.0, 84.0, -84.0, 70.0, 70.0],
    h_coeff: &[
        35.0, -20.0, -10.0, -4.0, -15.0, 5.0, -1.0, -84.0, 45.0, 20.0, 6.0, 39.0, -14.0, 3.0, 70.0,
        -36.0, -15.0, -4.0, -34.0, 13.0, -3.0, -20.0, 10.0, 4.0, 1.0, 10.0, -4.0, 1.0,
    ],
};

// The tables for an m. (It stays a function, and `1 ≤ m` its clause: a `From` would have to give tables for every number, and only 1, 2
// and 3 have some; a `TryFrom` would hand each caller a case that cannot happen.)
pub fn for_order(m: usize) -> BlockMatrices
    requires { (1 ≤ m) × (m ≤ 3) }
    ensures { result.m ≡ m }
{
    match m {
        1 => M1,
        2 => M2,
        _ => M3,
    }
}
