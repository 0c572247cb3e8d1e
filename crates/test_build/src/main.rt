// Makes the builds that standard input has, and compares each answer with the one that stands behind its call:
// number, record, and every cell of the buffer and of those beside it. The first lines of the input say how a call is
// written. Prints the names of calls that were answered otherwise, and how many calls and numbers there were.
#![tactic(auto)]

use rules::{PathError, PathRecord, SplineInput};
use std::io;
use std::io::Read;
use test_common::seen;
use test_common::seen::{Trial, replay};

// (A function of its own, so that what the build ensures is kept out of its callers' proofs.)
fn built(input: SplineInput, buffer: &mut [f64]) -> Result<PathRecord, PathError> {
    build::from_waypoints_view(input, buffer)
}

// (After a part of an array was lent, only a parameter's type tells the prover its length again.)
fn judged<R: Read>(
    trial: &mut Trial<R>,
    answer: Result<PathRecord, PathError>,
    buffer: &[f64; 16416],
) {
    test_given::answered(trial, answer);
    let written = trial.input.count();
    trial.cells(buffer, written);
}

// There is room for a buffer of 16400 cells.
fn call<R: Read>(trial: &mut Trial<R>) {
    let given = test_given::next(&mut trial.input);
    let lent = trial.input.count().min(16400);
    let mut numbers = [0.0; 2400];
    trial
        .input
        .list(&mut numbers, given.count(), |input| input.cell());
    let mut buffer = [0.0; 16416];
    seen::fill(&mut buffer);
    let answer = built(given.with(&numbers), &mut buffer[8..8 + lent]);
    judged(trial, answer, &buffer);
}

// (Each program stays with a main of its own, which names the step that is its own.)
fn main(rt: HostRuntime) -> io::Result<()> {
    replay(&rt, rt.stdin(), |trial| call(trial))
}
