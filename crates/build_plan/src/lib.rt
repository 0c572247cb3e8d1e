// What a build goes by (`Plan`), and the numbers of an axis's first and last node (`BoundaryNumbers`), which are made of the states
// that it is given (src/states.rt).
#![tactic(auto)]

ghost use Rattle.std.specs.Prelude.{◌≡◌, ◌+◌, ◌*◌, ◌≤◌, length};
ghost use Rattle.build_plan.specs.Given.{HasNumbers, first_of, last_of};

pub mod states;

use build_tables::BlockMatrices;
use states::EndState;

// What a build goes by, as its questions have found it: m, the inner nodes, the axes, inv_ds, the waypoints of all axes, and both states.
// (n stays beside the waypoints: it is no length, and read off theirs it would be `waypoints.len() / axes - 2`.)
#[derive(Clone, Copy)]
pub struct Plan<'a> {
    pub m: usize,
    pub n: usize,
    pub axes: usize,
    pub inv_ds: f64,
    pub waypoints: &'a [f64],
    pub start: EndState<'a>,
    pub end: EndState<'a>,
    pub ghost some: { 1 ≤ m },
    pub ghost few: { m ≤ 3 },
    pub ghost few_nodes: { n ≤ 255 },
    pub ghost few_axes: { axes ≤ 8 },
    pub ghost waypoints_length: { length waypoints.now ≡ (n + 2) * axes },
    pub ghost start_numbers: { HasNumbers axes m start },
    pub ghost end_numbers: { HasNumbers axes m end },
}

// F5: of an axis with n inner nodes, the m numbers of its first node and then those of its last, where m is that of the tables.
// (n stays beside the numbers: it is no length of theirs, but tells which node is the last.)
#[derive(Clone, Copy)]
pub struct BoundaryNumbers<'a> {
    pub tables: &'a BlockMatrices,
    pub n: usize,
    pub numbers: &'a [f64],
    pub ghost both: { tables.now.m + tables.now.m ≤ length numbers.now },
}

impl<'a> BoundaryNumbers<'a> {
    // The first node's.
    pub fn first(self) -> &'a [f64]
        ensures { result.now ≡ first_of self.entry.tables.now.m self.entry.numbers.now }
    {
        &self.numbers[..self.tables.m]
    }

    // The last node's.
    pub fn last(self) -> &'a [f64]
        ensures { result.now ≡ last_of self.entry.tables.now.m self.entry.numbers.now }
    {
        let m = self.tables.m;
        &self.numbers[m..m + m]
    }
}
