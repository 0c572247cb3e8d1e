// Which inner nodes' matrices a build factors. The matrices repeat (`NodesRepeat` of crates/theorem_pivots), so the first few have
// all of them. What the functions answer is said by the definitions of crates/theorem_pivots/specs/Repeating.antt.
#![tactic(auto)]

ghost use Rattle.std.specs.Prelude.{◌≡◌};
ghost use Rattle.theorem_pivots.specs.Repeating.{settled, distinct};

// Z3: a node, among the first few, that has the matrix of inner node i. At order 7 the matrices go round in a cycle of 57; at orders
// 3 and 5 each is the one before it in the end. (m and the node stay two parameters, and m and n below: two numbers, of which a struct
// would be made for the call.)
#[tactic(auto, unfolding(theorem_pivots::specs::Repeating::settled, theorem_pivots::specs::Repeating::lead, theorem_pivots::specs::Repeating::period))]
pub fn settled(m: usize, i: usize) -> usize
    ensures { result ≡ settled m i }
{
    // before node 14 none repeats, and a short curve asks no more
    if i < 14 {
        return i;
    }
    match m {
        1 => 14,
        2 => i.min(23),
        _ if i < 34 => i,
        _ => 34 + (i - 34) % 57,
    }
}

// Z3: how many nodes have all the matrices of n inner nodes: 15, 24 and 91 at most. (The two parameters stay, as above.)
#[tactic(auto, unfolding(theorem_pivots::specs::Repeating::distinct, theorem_pivots::specs::Repeating::lead, theorem_pivots::specs::Repeating::period))]
pub fn distinct(m: usize, n: usize) -> usize
    ensures { result ≡ distinct m n }
{
    match m {
        1 => n.min(15),
        2 => n.min(24),
        _ => n.min(91),
    }
}
