// Asks the previews that standard input has, and compares each answer with the one that stands behind its call: number and record. The
// first lines of the input say how a call is written. Prints the names of calls that were answered otherwise, and how many calls and
// numbers there were.
#![tactic(auto)]

use std::io;
use std::io::Read;
use test_common::seen::{Trial, replay};

// The cells are a number, and may be as many as no buffer has.
fn call<R: Read>(trial: &mut Trial<R>) {
    let given = test_given::next(&mut trial.input);
    let cells = trial.input.count();
    let mut numbers = [0.0; 2400];
    trial
        .input
        .list(&mut numbers, given.count(), |input| input.cell());
    let answer = build_preview::preview(given.with(&numbers), cells);
    test_given::answered(trial, answer);
}

// (Each program stays with a main of its own, which names the step that is its own.)
fn main(rt: HostRuntime) -> io::Result<()> {
    replay(&rt, rt.stdin(), |trial| call(trial))
}
