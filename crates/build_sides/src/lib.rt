// The right side at an inner node, of module 5 of document 01. What its functions are held to stands in
// crates/rules/specs/Build.antt.
#![tactic(auto)]

ghost use Rattle.std.specs.Prelude.{◌≡◌, List, suc, ◌-◌, ◌*◌, ◌≤◌, ◌<◌, length, Float};
ghost use Rattle.rules.specs.Build.{dy, bounded_side, solved_side};
ghost use Rattle.build_products.specs.Columns.{HoldsA, HoldsC, HoldsR};
ghost use Rattle.build_plan.specs.Given.{first_of, last_of};
ghost use Rattle.build_sides.specs.Node.{SideLent, part, full_side};

use build_plan::BoundaryNumbers;
use build_products::subtract_product;
use build_rhs::compute_rhs;

// Inner node i, with the dy before it and the dy after it.
#[derive(Clone, Copy)]
pub struct InnerNode {
    pub i: usize,
    pub dy_prev: f64,
    pub dy_next: f64,
}

// What the right sides at an axis's n inner nodes are made of, its waypoints aside: the tables R, A and C of an m, and the numbers of the
// first and of the last node.
// (It holds no `BlockMatrices`: that has B and H too, and lists that stay for good.)
#[derive(Clone, Copy)]
struct SideParts<'a> {
    m: usize,
    n: usize,
    r: &'a [f64],
    a: &'a [f64],
    c: &'a [f64],
    first: &'a [f64],
    last: &'a [f64],
    ghost some: { 1 ≤ m },
    ghost holds_r: { HoldsR m r.now },
    ghost holds_a: { HoldsA m a.now },
    ghost holds_c: { HoldsC m c.now },
    ghost first_length: { length first.now ≡ m },
    ghost last_length: { length last.now ≡ m },
}

// R6, R7: the right side at an inner node: "at the first node minus A·start; at the last then minus C·end". (Node and lists stay
// parameters, here and below: the node is another at each call, as crates/build_nodes says.)
fn bounded_side(parts: SideParts, node: InnerNode, side: &mut [f64])
    requires { (node.i < parts.n) × (length side.old ≡ parts.m) }
    ensures { (w : List Float) → dy w node.i ≡ node.dy_prev → dy w (suc node.i) ≡ node.dy_next
        → side.new
        ≡ bounded_side parts.entry.m parts.entry.n w parts.entry.first.now parts.entry.last.now node.i }
{
    let m = parts.m;
    compute_rhs(parts.r, node.dy_prev, node.dy_next, side);
    let at_first = node.i == 0;
    if at_first {
        subtract_product(m, parts.a, parts.first, side);
    }
    let at_last = node.i + 1 == parts.n;
    if at_last {
        subtract_product(m, parts.c, parts.last, side);
    }
}

// R8: the right side of an inner node, "past the first then minus A times the previous solved right side". (The parameters stay, as
// above.)
fn inner_side(parts: SideParts, node: InnerNode, solved: &[f64], side: &mut [f64])
    requires { (node.i < parts.n)
        × (length side.old ≡ parts.m)
        × (node.i * parts.m ≤ length solved.now) }
    ensures { let m = parts.entry.m in
        let n = parts.entry.n in
        let first = parts.entry.first.now in
        let last = parts.entry.last.now in
        (w : List Float) → dy w node.i ≡ node.dy_prev → dy w (suc node.i) ≡ node.dy_next
        → (0 < node.i → part m solved.now (node.i - 1) ≡ solved_side m n w first last (node.i - 1))
        → side.new ≡ full_side m n w first last node.i }
{
    let m = parts.m;
    bounded_side(parts, node, side);
    let past_first = 0 < node.i;
    if past_first {
        let previous = (node.i - 1) * m;
        subtract_product(m, parts.a, &solved[previous..previous + m], side);
    }
}

// R8: the right side of inner node i, from the dy before it and the dy after it. The boundary numbers are the first node's and then the
// last's. (The lists stay loose: a caller may have them without the tables that `BoundaryNumbers` holds.)
pub fn full_side(
    m: usize,
    n: usize,
    r: &[f64],
    a: &[f64],
    c: &[f64],
    dy_prev: f64,
    dy_next: f64,
    boundary: &[f64],
    i: usize,
    solved: &[f64],
    side: &mut [f64],
)
    requires { SideLent m n r.now a.now c.now boundary.now i side.old × (i * m ≤ length solved.now) }
    ensures { let first = first_of m boundary.now in
        let last = last_of m boundary.now in
        (w : List Float) → dy w i ≡ dy_prev → dy w (suc i) ≡ dy_next
        → (0 < i → part m solved.now (i - 1) ≡ solved_side m n w first last (i - 1))
        → side.new ≡ full_side m n w first last i }
{
    let parts = SideParts {
        m,
        n,
        r,
        a,
        c,
        first: &boundary[..m],
        last: &boundary[m..m + m],
    };
    let node = InnerNode {
        i,
        dy_prev,
        dy_next,
    };
    inner_side(parts, node, solved, side);
}

// R8: the same of an axis's boundary numbers, with the tables of an order. (The parameters stay, as above.)
pub fn full_side_with(ends: BoundaryNumbers, node: InnerNode, solved: &[f64], side: &mut [f64])
    requires { (node.i < ends.n)
        × (length side.old ≡ ends.tables.now.m)
        × (node.i * ends.tables.now.m ≤ length solved.now) }
    ensures { let m = ends.entry.tables.now.m in
        let first = first_of m ends.entry.numbers.now in
        let last = last_of m ends.entry.numbers.now in
        (w : List Float) → dy w node.i ≡ node.dy_prev → dy w (suc node.i) ≡ node.dy_next
        → (0 < node.i
        → part m solved.now (node.i - 1)
        ≡ solved_side m ends.entry.n w first last (node.i - 1))
        → side.new ≡ full_side m ends.entry.n w first last node.i }
{
    let tables = ends.tables;
    let parts = SideParts {
        m: tables.m,
        n: ends.n,
        r: tables.r,
        a: tables.a,
        c: tables.c,
        first: ends.first(),
        last: ends.last(),
    };
    inner_side(parts, node, solved, side);
}
