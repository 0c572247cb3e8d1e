// The inner nodes of one axis, module 5 of document 01: their right sides solved forward, and their numbers found back. The nodes'
// matrices are factored already, once for all axes. What its functions are held to stands in crates/rules/specs/Build.antt, and for
// an axis and for the matrices in specs/.
#![tactic(auto)]

ghost use Rattle.std.specs.Prelude.{◌≡◌, List, ◌++◌, suc, ◌+◌, ◌-◌, ◌*◌, ◌≤◌, ◌<◌, length, take, drop, Float};
ghost use Rattle.law_lists.specs.Lists.{joined};
ghost use Rattle.rules.specs.Solve.{times, minus, solve, node_factors, solved_c_of};
ghost use Rattle.rules.specs.Build.{solved_side, inner_numbers};
ghost use Rattle.build_sides.specs.Node.{part};
ghost use Rattle.build_sweeps.specs.Nodes.{NodeFactors, NodeSolved, put};

use build_forward::Factored;
use build_plan::BoundaryNumbers;
use build_products::subtract_product;
use build_rhs::AxisWaypoints;
use build_settled::settled;
use build_sides::{InnerNode, full_side_with};
use build_tables::BlockMatrices;

// What all axes of a build with n inner nodes share: the tables, and of the nodes' matrices that differ, one after the other, the
// factored matrices, their rows, and solved C by columns.
// (n stays beside the lists: it is no length of theirs, since they hold the nodes that differ, and may have room for more. The rows stay a
// list of numbers, as crates/build_pivots says.)
#[derive(Clone, Copy)]
pub struct NodeMatrices<'a> {
    pub tables: &'a BlockMatrices,
    pub n: usize,
    pub entries: &'a [f64],
    pub rows: &'a [usize],
    pub solved_c: &'a [f64],
    pub ghost few_nodes: { n ≤ 255 },
    pub ghost factors: { NodeFactors tables.now.m n entries.now rows.now },
    pub ghost solved: { NodeSolved tables.now.m n solved_c.now },
}

impl NodeMatrices<'_> {
    // R10, Z3: a right side solved with the factored matrix of inner node i, into its place.
    // (The node's place and the list of all nodes stay two parameters: the place is another at each call, so a struct of both would be
    // made anew for each node.)
    #[tactic(auto, using(crate::proofs::AllNodes::entries_inside, crate::proofs::AllNodes::rows_inside))]
    fn solve_node(&self, i: usize, side: &[f64], solved: &mut [f64])
        requires { (i < self.now.n)
            × (length side.now ≡ self.now.tables.now.m)
            × (i * self.now.tables.now.m + self.now.tables.now.m ≤ length solved.old) }
        ensures { let m = self.now.tables.now.m in
            solved.new ≡ put m i (solve m (node_factors m i) side.now) solved.old }
    {
        let m = self.tables.m;
        let k = settled(m, i);
        let at = k * (m * m);
        let row = k * m;
        let out = i * m;
        let matrix = Factored {
            m,
            entries: &self.entries[at..at + m * m],
            rows: &self.rows[row..row + m],
        };
        build_solving::solve(&matrix, side, &mut solved[out..out + m]);
    }

    // R11, Z3: "Back: u = solved right side − solved C · next u", at inner node i.
    // (The node's place and the list of all nodes stay two parameters, as above.)
    #[tactic(auto, using(crate::proofs::AllNodes::solved_inside))]
    fn back_step(&self, i: usize, solved: &mut [f64])
        requires { (i < self.now.n) × ((i + 2) * self.now.tables.now.m ≤ length solved.old) }
        ensures { let m = self.now.tables.now.m in
            let before = solved.old in
            solved.new ≡ put m i (minus m (part m before i) (times m (solved_c_of m i) (part m before (i + 1)))) before }
    {
        let m = self.tables.m;
        let at = settled(m, i) * (m * m);
        let row = i * m;
        let solved_c = &self.solved_c[at..at + m * m];
        let (own, next) = solved.split_at_mut(row + m);
        subtract_product(m, solved_c, &next[..m], &mut own[row..]);
    }

    // The numbers of all inner nodes, from the last but one back to the first, in the place of the solved right sides.
    fn back_sweep(&self, solved: &mut [f64])
        requires { self.now.n * self.now.tables.now.m ≤ length solved.old }
        ensures { let m = self.now.tables.now.m in
            let n = self.now.n in
            (w start end : List Float)
            → take (n * m) solved.old ≡ joined n (solved_side m n w start end)
            → solved.new ≡ joined n (λ j. inner_numbers m n w start end j (n - suc j)) ++ drop (n * m) solved.old }
    {
        for i in (1..self.n).rev() {
            self.back_step(i - 1, solved);
        }
    }
}

// One axis of a build: the inner nodes' matrices, which all axes share, its waypoints, and the m numbers of its first node and then
// those of its last. (The waypoints are the caller's, and the rest is made for the call: so there are two lifetimes. The two places that
// make `BoundaryNumbers` of it stay two: a method for both would promise each of its three fields, and each caller would have to read them
// there.)
#[derive(Clone, Copy)]
pub struct Axis<'a, 'b> {
    pub nodes: &'a NodeMatrices<'a>,
    pub points: AxisWaypoints<'b>,
    pub numbers: &'a [f64],
    pub ghost points_length: { length points.waypoints.now ≡ (nodes.now.n + 2) * points.axes },
    pub ghost both: { nodes.now.tables.now.m + nodes.now.tables.now.m ≤ length numbers.now },
}

impl Axis<'_, '_> {
    ghost use Rattle.std.specs.Prelude.{◌≡◌, ◌++◌, ◌≤◌, length, drop};
    ghost use Rattle.law_lists.specs.Lists.{joined};
    ghost use Rattle.build_sweeps.specs.OfAxis.{inner_length, solved_sides, numbers_of};

    // R8, R10: the solved right sides of all inner nodes. A dy is worked out once: the one after a node is the one before the next.
    fn forward_sweep(&self, solved: &mut [f64])
        requires { inner_length self.now ≤ length solved.old }
        ensures { solved.new
            ≡ joined self.now.nodes.now.n (solved_sides self.now) ++ drop (inner_length self.now) solved.old }
    {
        let nodes = self.nodes;
        let points = self.points;
        let ends = BoundaryNumbers {
            tables: nodes.tables,
            n: nodes.n,
            numbers: self.numbers,
        };
        let mut room = [0.0; 3];
        let side = &mut room[..nodes.tables.m];
        let mut dy_prev = points.dy(0);
        for i in 0..nodes.n {
            let dy_next = points.dy(i + 1);
            let node = InnerNode {
                i,
                dy_prev,
                dy_next,
            };
            full_side_with(ends, node, solved, side);
            nodes.solve_node(i, side, solved);
            dy_prev = dy_next;
        }
    }

    // R8, R10, R11: the numbers of all inner nodes.
    pub fn inner_numbers(&self, solved: &mut [f64])
        requires { inner_length self.now ≤ length solved.old }
        ensures { solved.new
            ≡ joined self.now.nodes.now.n (numbers_of self.now) ++ drop (inner_length self.now) solved.old }
    {
        self.forward_sweep(solved);
        self.nodes.back_sweep(solved);
    }
}
