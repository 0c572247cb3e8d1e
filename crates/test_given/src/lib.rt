// What the programs have in common that try the build and the preview: what a call is given, read from standard input, and its number
// and record beside those that stand behind it. The first lines of crates/test_build/stdin say how a call is written.
#![tactic(auto)]

ghost use Rattle.std.specs.Prelude.{◌≤◌};

use rules::{BoundaryState, PathError, PathParam, PathRecord, SplineConfig, SplineInput};
use std::io::Read;
use test_common::seen::Trial;
use test_input::read::Input;
use tezvorup_records::RawAnswer;

// Kinds: 0 none, 1 given, 2 given per unit of s.
fn next_state<R: Read>(input: &mut Input<R>) -> Option<BoundaryState> {
    let kind = input.count();
    let rows = input.count();
    let columns = input.count();
    if kind == 0 {
        return None;
    }
    Some(BoundaryState {
        rows,
        columns,
        per_unit_of_s: kind == 2,
    })
}

fn next_config<R: Read>(input: &mut Input<R>) -> SplineConfig {
    SplineConfig {
        order: input.count(),
        s_min: PathParam(input.float()),
        s_max: PathParam(input.float()),
        out_of_range_mode: input.mode(),
        start_state: next_state(input),
        end_state: next_state(input),
    }
}

// Where waypoints, start and end lie in one list, one behind the other: the start's numbers begin at `start`, the end's at `end`, and
// behind `past` is nothing.
#[derive(Clone, Copy)]
pub struct Lists {
    pub start: usize,
    pub end: usize,
    pub past: usize,
}

// The same, where the list has so many numbers. (Nothing is cut off, but the prover does not know.)
pub fn within(lists: Lists, all: usize) -> Lists
    ensures { (result.start ≤ result.end) × (result.end ≤ result.past) × (result.past ≤ all) }
{
    let past = lists.past.min(all);
    let end = lists.end.min(past);
    let start = lists.start.min(end);
    Lists { start, end, past }
}

// What a call is given, but for the numbers of its lists: how many each has.
#[derive(Clone, Copy)]
pub struct Given {
    config: SplineConfig,
    points: usize,
    axes: usize,
    waypoints: usize,
    start: usize,
    end: usize,
}

// There is room for 2336 waypoints and for 32 numbers of a state. What is more is cut off.
pub fn next<R: Read>(input: &mut Input<R>) -> Given {
    Given {
        config: next_config(input),
        points: input.count(),
        axes: input.count(),
        waypoints: input.count().min(2336),
        start: input.count().min(32),
        end: input.count().min(32),
    }
}

impl Given {
    // (The sums don't saturate, since `next` cuts off what is more, but the prover does not know.)
    fn lists(&self) -> Lists {
        let start = self.waypoints;
        let end = start.saturating_add(self.start);
        let past = end.saturating_add(self.end);
        Lists { start, end, past }
    }

    // How many numbers the three lists have together.
    pub fn count(&self) -> usize {
        self.lists().past
    }

    // With the numbers: waypoints, start and end, one behind the other.
    pub fn with<'a>(&self, numbers: &'a [f64]) -> SplineInput<'a> {
        let lists = within(self.lists(), numbers.len());
        SplineInput {
            config: self.config,
            points: self.points,
            axes: self.axes,
            waypoints: &numbers[..lists.start],
            start: &numbers[lists.start..lists.end],
            end: &numbers[lists.end..lists.past],
        }
    }
}

// A call more, its number and its record, which is what C gets of the answer: all zero with mode Error where it is refused.
pub fn answered<R: Read>(trial: &mut Trial<R>, answer: Result<PathRecord, PathError>) {
    let told = RawAnswer::from(answer);
    let path = told.path;
    trial.answered(told.number);
    trial.whole(path.order);
    trial.whole(path.segments);
    trial.whole(path.axes);
    trial.float(path.s_min);
    trial.float(path.s_max);
    trial.float(path.inv_ds);
    trial.whole(usize::from(path.mode));
}
