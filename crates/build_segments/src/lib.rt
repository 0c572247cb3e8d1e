// What a segment is made of, module 3 of document 01. What its functions are held to stands in
// crates/rules/specs/Build.antt; where the code keeps the numbers of a node, in specs/.
#![tactic(auto)]

ghost use Rattle.std.specs.Prelude.{◌≡◌, ◌+◌, ◌*◌, ◌≤◌, length};
ghost use Rattle.law_lists.specs.Lists.{listed};
ghost use Rattle.rules.specs.Build.{upper_coefficient, segment_coefficients};
ghost use Rattle.build_products.specs.Columns.{HoldsH};
ghost use Rattle.build_segments.specs.NodeNumbers.{node_part};

use build_plan::BoundaryNumbers;
use build_products::dot;
use build_tables::BlockMatrices;

// F5: the m numbers of node i: a part of the boundary numbers, which are the first node's and then the last's, or of
// the solved list, without copying.
// (The lists stay loose, for any m: a caller may have them without the tables that `BoundaryNumbers` holds.)
pub fn node_numbers<'a>(
    m: usize,
    n: usize,
    boundary: &'a [f64],
    solved: &'a [f64],
    i: usize,
) -> &'a [f64]
    requires { (m + m ≤ length boundary.now) × (n * m ≤ length solved.now) × (i ≤ n + 1) }
    ensures { result.now ≡ node_part m n boundary.now solved.now i }
{
    if i == 0 {
        return &boundary[..m];
    }
    if n < i {
        return &boundary[m..m + m];
    }
    let at = (i - 1) * m;
    &solved[at..at + m]
}

// F5: the same of an axis's boundary numbers.
pub fn numbers_of_node<'a>(ends: BoundaryNumbers<'a>, solved: &'a [f64], i: usize) -> &'a [f64]
    requires { (ends.n * ends.tables.now.m ≤ length solved.now) × (i ≤ ends.n + 1) }
    ensures { result.now ≡ node_part ends.entry.tables.now.m ends.entry.n ends.entry.numbers.now solved.now i }
{
    node_numbers(ends.tables.m, ends.n, ends.numbers, solved, i)
}

// R2: "Upper coefficient i = (H[i,0] × dy + P) + Q": the m + 1 of a segment. (Its lists stay parameters and what holds of them stays
// clauses: a caller may have an H without the tables that `BlockMatrices` holds.)
pub fn upper_coeffs(m: usize, h_coeff: &[f64], dy: f64, u0: &[f64], u1: &[f64], out: &mut [f64])
    requires { (1 ≤ m)
        × HoldsH m h_coeff.now
        × (length u0.now ≡ m)
        × (length u1.now ≡ m)
        × (length out.old ≡ m + 1) }
    ensures { out.new ≡ listed (m + 1) (upper_coefficient m dy u0.now u1.now) }
{
    let width = 1 + 2 * m;
    for (i, x) in out.iter_mut().enumerate() {
        let at = i * width;
        let dot_u0 = dot(h_coeff, at + 1, 1, u0);
        let dot_u1 = dot(h_coeff, at + 1 + m, 1, u1);
        *x = h_coeff[at] * dy + dot_u0 + dot_u1;
    }
}

// R2: the same, with the tables of an order.
// (Tables and what is filled stay two parameters, as crates/build_nodes says.)
pub fn upper_coeffs_with(tables: &BlockMatrices, dy: f64, u0: &[f64], u1: &[f64], out: &mut [f64])
    requires { (length u0.now ≡ tables.now.m)
        × (length u1.now ≡ tables.now.m)
        × (length out.old ≡ tables.now.m + 1) }
    ensures { out.new ≡ listed (tables.now.m + 1) (upper_coefficient tables.now.m dy u0.now u1.now) }
{
    upper_coeffs(tables.m, tables.h_coeff, dy, u0, u1, out);
}

// A list copied into another of its length. (The loop stays: a node has three numbers at most, and std's copy_from_slice asks the C
// library, which costs a segment of order 3 a tenth of its time.)
fn copy_few(from: &[f64], to: &mut [f64])
    requires { length to.old ≡ length from.now }
    ensures { to.new ≡ from.now }
{
    for (r, x) in to.iter_mut().enumerate() {
        *x = from[r];
    }
}

// R4: "Segment: left waypoint, left node's m numbers, the m + 1 upper ones."
// (It stays a function of its own: it prints nothing, and fills numbers.)
pub fn write_segment_coeffs(
    m: usize,
    h_coeff: &[f64],
    y: f64,
    dy: f64,
    u0: &[f64],
    u1: &[f64],
    out: &mut [f64],
)
    requires { (1 ≤ m)
        × HoldsH m h_coeff.now
        × (length u0.now ≡ m)
        × (length u1.now ≡ m)
        × (length out.old ≡ 2 * m + 2) }
    ensures { out.new ≡ segment_coefficients m y dy u0.now u1.now }
{
    let upper = m + 1;
    out[0] = y;
    copy_few(u0, &mut out[1..upper]);
    upper_coeffs(m, h_coeff, dy, u0, u1, &mut out[upper..]);
}

// R4: the same, with the tables of an order.
// (Tables and what is filled stay two parameters, as crates/build_nodes says.)
pub fn write_segment_coeffs_with(
    tables: &BlockMatrices,
    y: f64,
    dy: f64,
    u0: &[f64],
    u1: &[f64],
    out: &mut [f64],
)
    requires { (length u0.now ≡ tables.now.m)
        × (length u1.now ≡ tables.now.m)
        × (length out.old ≡ 2 * tables.now.m + 2) }
    ensures { out.new ≡ segment_coefficients tables.now.m y dy u0.now u1.now }
{
    write_segment_coeffs(tables.m, tables.h_coeff, y, dy, u0, u1, out);
}
