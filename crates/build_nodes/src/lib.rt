// The matrices of a build's inner nodes, which its order and the node's place alone decide, factored
// and solved with by crates/build_solving. What each function does is said by the definitions of
// crates/rules/specs/Solve.antt, for every m.
//
// What is filled stays a parameter beside the tables: each call lends another part, as `&mut out[at..at + m]`, so a struct of the tables
// and that part would be made for the one call, and taken apart in it again. The three lists of the nodes stay three, as crates/build_axes
// says.
#![tactic(auto)]

ghost use Rattle.std.specs.Prelude.{◌≡◌, ◌+◌, ◌*◌, ◌≤◌, ◌<◌, ◌++◌, length, drop};
ghost use Rattle.law_lists.specs.Lists.{listed};
ghost use Rattle.rules.specs.Solve.{matrix, node_matrix, node_factors};
ghost use Rattle.build_products.specs.Columns.{transposed, HoldsA, HoldsB, HoldsC};
ghost use Rattle.build_nodes.specs.NodeLists.{Room, node_entries, node_rows, node_solved};
ghost use Rattle.build_nodes.specs.Steps.{next_entry, SolvedTo};

use build_forward::Factored;
use build_tables::BlockMatrices;

// The tables A, B and C of an m, kept as crates/build_tables says: all that the nodes' matrices are made of.
// (It is no `BlockMatrices`: that has R and H too, lists that stay for good, and an m of 1 to 3 alone.)
#[derive(Clone, Copy)]
struct NodeTables<'a> {
    m: usize,
    a: &'a [f64],
    b: &'a [f64],
    c: &'a [f64],
    ghost holds_a: { HoldsA m a.now },
    ghost holds_b: { HoldsB m b.now },
    ghost holds_c: { HoldsC m c.now },
}

// R9: row r of the matrix of an inner node past the first.
fn node_row(tables: &NodeTables, r: usize, previous: &[f64], out: &mut [f64])
    requires { (r < tables.now.m)
        × (length previous.now ≡ tables.now.m * tables.now.m)
        × (length out.old ≡ tables.now.m) }
    ensures { out.new
        ≡ listed tables.now.m (next_entry tables.now.m (transposed tables.now.m previous.now) r) }
{
    let m = tables.m;
    for (c, x) in out.iter_mut().enumerate() {
        let at = c * m;
        *x = tables.b[r * m + c] - build_products::dot(tables.a, r, m, &previous[at..at + m]);
    }
}

// The matrix of an inner node past the first.
fn node_matrix(tables: &NodeTables, previous: &[f64], out: &mut [f64])
    requires { (length previous.now ≡ tables.now.m * tables.now.m)
        × (length out.old ≡ tables.now.m * tables.now.m) }
    ensures { let m = tables.now.m in out.new ≡ matrix m m (next_entry m (transposed m previous.now)) }
{
    let m = tables.m;
    for r in 0..m {
        let at = r * m;
        node_row(tables, r, previous, &mut out[at..at + m]);
    }
}

// R9: the matrix of inner node i. Past the first it takes solved C of the node before.
fn node_entries(tables: &NodeTables, i: usize, solved: &[f64], out: &mut [f64])
    requires { SolvedTo tables.now.m i solved.now × (length out.old ≡ tables.now.m * tables.now.m) }
    ensures { out.new ≡ node_matrix tables.now.m i }
{
    if i == 0 {
        out.copy_from_slice(tables.b);
        return;
    }
    let mm = tables.m * tables.m;
    let before = (i - 1) * mm;
    node_matrix(tables, &solved[before..before + mm], out);
}

// R10: inner node i is factored, and C is solved with it.
// (The node's place and the list of all nodes stay two parameters: the place is another at each call, so a struct of both would be made
// anew for each node. The rows stay a list of numbers, as crates/build_pivots says.)
fn factor_node(
    tables: &NodeTables,
    i: usize,
    entries: &mut [f64],
    rows: &mut [usize],
    solved: &mut [f64],
)
    requires { let m = tables.now.m in
        (length entries.old ≡ m * m)
        × (length rows.old ≡ m)
        × ((i + 1) * (m * m) ≤ length solved.old)
        × SolvedTo m i solved.old }
    ensures { let m = tables.now.m in
        (entries.new ≡ (node_factors m i).entries)
        × (rows.new ≡ (node_factors m i).rows)
        × (solved.new ≡ node_solved m (i + 1) ++ drop ((i + 1) * (m * m)) solved.old) }
{
    let m = tables.m;
    node_entries(tables, i, solved, entries);
    build_factoring::factor(m, entries, rows);
    let at = i * (m * m);
    let factored = Factored { m, entries, rows };
    build_solving::solve_matrix(&factored, tables.c, &mut solved[at..at + m * m]);
}

// The inner nodes 0 to n − 1, one after the other. (n stays a parameter: it is no length, since the lists may have room for more than n.
// The rows stay a list of numbers, as crates/build_pivots says. The three tables stay loose, for any m: a caller may have them without the
// others that `BlockMatrices` holds.)
pub fn factor_nodes(
    m: usize,
    n: usize,
    a: &[f64],
    b: &[f64],
    c: &[f64],
    entries: &mut [f64],
    rows: &mut [usize],
    solved: &mut [f64],
)
    requires { HoldsA m a.now
        × HoldsB m b.now
        × HoldsC m c.now
        × Room m n entries.old rows.old solved.old }
    ensures { (entries.new ≡ node_entries m n ++ drop (n * (m * m)) entries.old)
        × (rows.new ≡ node_rows m n ++ drop (n * m) rows.old)
        × (solved.new ≡ node_solved m n ++ drop (n * (m * m)) solved.old) }
{
    let tables = NodeTables { m, a, b, c };
    for i in 0..n {
        let at = i * (m * m);
        let row = i * m;
        factor_node(
            &tables,
            i,
            &mut entries[at..at + m * m],
            &mut rows[row..row + m],
            solved,
        );
    }
}

// The same, with the tables of an order.
pub fn factor_nodes_with(
    tables: &BlockMatrices,
    n: usize,
    entries: &mut [f64],
    rows: &mut [usize],
    solved: &mut [f64],
)
    requires { Room tables.now.m n entries.old rows.old solved.old }
    ensures { let m = tables.now.m in
        (entries.new ≡ node_entries m n ++ drop (n * (m * m)) entries.old)
        × (rows.new ≡ node_rows m n ++ drop (n * m) rows.old)
        × (solved.new ≡ node_solved m n ++ drop (n * (m * m)) solved.old) }
{
    factor_nodes(
        tables.m, n, tables.a, tables.b, tables.c, entries, rows, solved,
    );
}
