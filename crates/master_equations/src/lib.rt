// The equations of one segment of a master, and those of the start state: what the check (crates/master) asks of each segment in
// turn. It is not open to callers of the library: it is lent what the check has found to be in order. The order is 2m + 1, and m is
// a const parameter, so that the compiler unrolls every loop over a segment's numbers: three times as fast.
#![tactic(auto)]

ghost use Rattle.std.specs.Prelude.{◌≡◌, ◌&&◌, ℕ, ◌-◌, ◌<◌, ◌≤◌, length};
ghost use Rattle.rules.specs.Master.{meets_start};
ghost use Rattle.master_numbers.specs.Sums.{Summable};
ghost use Rattle.master_equations.specs.Segment.{Shaped, meets_at, segment_meets};

use master_numbers::sums::sums_of;

// The numbers of a list from place 1 on are, as far as they go, those of another. So the sums at a segment's end
// are compared with the end state or the next segment's coefficients, and the first segment's with the start state.
fn meets(sums: &[i64], numbers: &[i64]) -> bool
    requires { length numbers.now < length sums.now }
    ensures { result ≡ meets_at sums.now numbers.now }
{
    &sums[1..numbers.len() + 1] == numbers
}

// R38: coefficients 1 to m of the first segment are the start state. (The two lists stay parameters: they are all of a set that it looks
// at.)
pub fn meets_start_of<const M: usize>(start: &[i64], table: &[i64]) -> bool
    requires { (M ≤ length start.now) × (M < length table.now) }
    ensures { (segments : ℕ) → result ≡ meets_start M segments table.now start.now }
{
    meets(table, &start[..M])
}

// The same where m is known only when the program runs. (The parameters stay, as above.)
pub fn meets_start(m: usize, start: &[i64], table: &[i64]) -> bool
    requires { (m ≤ length start.now) × (m < length table.now) }
    ensures { (segments : ℕ) → result ≡ meets_start m segments table.now start.now }
{
    meets(table, &start[..m])
}

// What the segments' equations speak of, in a set whose lengths are as they have to be.
#[derive(Clone, Copy)]
pub struct MasterSegments<'a, const M: usize> {
    pub waypoints: &'a [i64],
    pub end: &'a [i64],
    pub table: &'a [i64],
    pub ghost shaped: { Shaped M waypoints.now end.now table.now },
}

impl<'a, const M: usize> MasterSegments<'a, M> {
    // R36, R37, R39, R40: segment i meets its equations.
    #[tactic(auto, using(crate::proofs::Tests::by_tests))]
    pub fn equations_hold(self, i: usize) -> bool
        requires { (i < length self.waypoints.now - 1) × Summable M self.table.now i }
        ensures { result ≡ segment_meets M self.entry.waypoints.now self.entry.end.now self.entry.table.now i }
    {
        let cells = 2 * M + 2;
        let next = (i + 1) * cells;
        let joint = 2 * M;
        let first = self.table[i * cells];
        let left = self.waypoints[i];
        let right = self.waypoints[i + 1];
        let is_unlike = first != left;
        if is_unlike {
            return false;
        }
        let sums = sums_of::<M>(self.table, i);
        if sums[0] != right {
            return false;
        }
        if i + 2 == self.waypoints.len() {
            return meets(&sums, &self.end[..M]); // the last segment
        }
        meets(&sums, &self.table[next + 1..next + 1 + joint])
    }
}

// R36, R37, R39, R40: all before is good, and segment i meets its equations, where m is known only when the program runs. (The match stays,
// since no number becomes a const parameter, and so do the parameters: a caller's lists need no `MasterSegments`.)
pub fn segment_meets(
    before: bool,
    m: usize,
    waypoints: &[i64],
    end: &[i64],
    table: &[i64],
    i: usize,
) -> bool
    requires { Shaped m waypoints.now end.now table.now × (i < length waypoints.now - 1) × Summable m table.now i }
    ensures { result ≡ (before && segment_meets m waypoints.now end.now table.now i) }
{
    if !before {
        return false;
    }
    match m {
        1 => MasterSegments::<1> {
            waypoints,
            end,
            table,
        }
        .equations_hold(i),
        2 => MasterSegments::<2> {
            waypoints,
            end,
            table,
        }
        .equations_hold(i),
        _ => MasterSegments::<3> {
            waypoints,
            end,
            table,
        }
        .equations_hold(i),
    }
}
