// Reads the numbers that standard input has in pieces, and compares what is kept and what is said after each piece with what stands
// behind it. The first lines of the input say how a trial is written. Prints the names of trials that came out otherwise, and how
// many calls there were.
#![tactic(auto)]

use rules::NumberReading;
use std::io;
use std::io::Read;
use test_common::seen::{Trial, replay};
use test_input::read::Input;

fn next_record<R: Read>(input: &mut Input<R>) -> NumberReading {
    NumberReading {
        start: input.natural(),
        next: input.natural(),
        size: input.natural() as u64,
        stage: (input.natural() % 256) as u8,
        minus: (input.natural() % 256) as u8,
    }
}

// What is kept is compared with the next record. (Here and below it stays a parameter beside the trial: it is handed on from piece to
// piece by value, which is what is tried, and the trial outlives it.)
fn keeps<R: Read>(trial: &mut Trial<R>, kept: NumberReading, expected: NumberReading) {
    trial.called(kept == expected);
}

// What the record says is compared with the next three numbers. (It stays a parameter, as above.)
fn says<R: Read>(trial: &mut Trial<R>, kept: NumberReading) {
    let said = number::finish(kept);
    let expected = trial.input.natural();
    trial.called(said.number as usize == expected);
    let at = trial.input.natural();
    trial.compared(said.at == at);
    let value = trial.input.integer();
    trial.compared(said.value == value);
}

// A piece. (What is kept stays a parameter, as above.)
fn goes_on<R: Read>(trial: &mut Trial<R>, kept: NumberReading, bytes: &[u8]) -> NumberReading {
    let kept = number::go_on(kept, bytes);
    let expected = next_record(&mut trial.input);
    keeps(trial, kept, expected);
    says(trial, kept);
    kept
}

// A piece has at most 64 bytes; what is more is cut off. A line's end stands behind it. (What is kept stays a parameter, as above.)
fn piece<R: Read>(trial: &mut Trial<R>, kept: NumberReading) -> NumberReading {
    let mut line = [0; 64];
    let mut end = [0; 1];
    let count = trial.input.count();
    let length = trial.input.bytes(&mut line, count);
    trial.input.bytes(&mut end, 1);
    goes_on(trial, kept, &line[0..length.min(64)])
}

// A record that is begun at its start, or one as it is given.
fn begin<R: Read>(trial: &mut Trial<R>) -> NumberReading {
    let is_begun = trial.input.count() != 0;
    let given = next_record(&mut trial.input);
    if is_begun {
        let kept = number::begin(given.start);
        keeps(trial, kept, given);
        return kept;
    }
    given
}

fn trial<R: Read>(trial: &mut Trial<R>) {
    let mut kept = begin(trial);
    for _ in 0..trial.input.count() {
        kept = piece(trial, kept);
    }
}

// (Each program stays with a main of its own, which names the step that is its own.)
fn main(rt: HostRuntime) -> io::Result<()> {
    replay(&rt, rt.stdin(), |each| trial(each))
}
