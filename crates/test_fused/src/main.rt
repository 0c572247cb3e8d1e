// Makes the fused multiply-adds that standard input has, and compares each result, bit for bit, with the one that stands
// beside its operands. The first lines of the input say how they are written. Prints the names of families in
// which a result is otherwise, and how many there were.
#![tactic(auto)]

use std::io;
use std::io::Read;
use test_common::seen::{Trial, replay};
use test_input::bits;

fn step<R: Read>(trial: &mut Trial<R>) {
    let a = trial.input.cell();
    let b = trial.input.cell();
    let c = trial.input.cell();
    let result = fused::mul_add(a, b, c);
    let expected = trial.input.cell();
    trial.called(bits::same(result, expected));
}

fn family<R: Read>(trial: &mut Trial<R>) {
    for _ in 0..trial.input.count() {
        step(trial);
    }
}

// (Each program stays with a main of its own, which names the step that is its own.)
fn main(rt: HostRuntime) -> io::Result<()> {
    replay(&rt, rt.stdin(), |trial| family(trial))
}
