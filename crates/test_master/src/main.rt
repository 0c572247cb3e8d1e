// Makes the master checks that standard input has, and compares each answer with the one that stands behind its call:
// 0 for no, 1 for yes, else the refusal's number. The first lines of the input say how a call is written. Prints
// the names of sets of which a check was answered otherwise, and how many checks there were.
#![tactic(auto)]

use master_questions::lists::MasterLists;
use std::io;
use std::io::Read;
use test_common::seen::{Trial, replay};

// A set: how many waypoints there are, how many numbers of the start, of the end and of the table.
#[derive(Clone, Copy)]
struct Lengths {
    waypoints: usize,
    start: usize,
    end: usize,
    table: usize,
}

// There is room for 300 waypoints, 32 numbers of a state and 2100 of a table. What is more is cut off.
fn next_lengths<R: Read>(trial: &mut Trial<R>) -> Lengths {
    Lengths {
        waypoints: trial.input.count().min(300),
        start: trial.input.count().min(32),
        end: trial.input.count().min(32),
        table: trial.input.count().min(2100),
    }
}

// The list holds waypoints, start, end and table, one behind the other. (The answer stays a number, which is what the input has of it.)
fn check(order: usize, n: Lengths, numbers: &[i64]) -> u32 {
    let (waypoints, rest) = numbers.split_at(n.waypoints.min(numbers.len()));
    let (start, rest) = rest.split_at(n.start.min(rest.len()));
    let (end, rest) = rest.split_at(n.end.min(rest.len()));
    let table = &rest[..n.table.min(rest.len())];
    let lists = MasterLists {
        waypoints,
        start,
        end,
        table,
    };
    match master::check_master(order, lists) {
        Ok(good) => u32::from(good),
        Err(error) => u32::from(error),
    }
}

// A change: a place among the numbers, what stands there for this one check, and the answer.
fn changed<R: Read>(trial: &mut Trial<R>, order: usize, n: Lengths, numbers: &mut [i64]) {
    let place = trial.input.natural();
    let there = trial.input.integer();
    if numbers.len() <= place {
        return trial.called(false);
    }
    let before = numbers[place];
    numbers[place] = there;
    let answer = check(order, n, numbers);
    numbers[place] = before;
    let expected = trial.input.natural();
    trial.called(answer as usize == expected);
}

fn set<R: Read>(trial: &mut Trial<R>) {
    let order = trial.input.count();
    let n = next_lengths(trial);
    let mut numbers = [0; 2464];
    let states = n.start.saturating_add(n.end);
    let all = n.waypoints.saturating_add(states).saturating_add(n.table);
    trial.input.list(&mut numbers, all, |input| input.integer());
    trial.answered(check(order, n, &numbers));
    for _ in 0..trial.input.count() {
        changed(trial, order, n, &mut numbers);
    }
}

// (Each program stays with a main of its own, which names the step that is its own.)
fn main(rt: HostRuntime) -> io::Result<()> {
    replay(&rt, rt.stdin(), |trial| set(trial))
}
