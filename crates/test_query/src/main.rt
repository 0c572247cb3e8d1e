// Makes the queries that standard input has, and compares each answer with the one that stands behind its call: number,
// and every cell of the four buffers and of those beside it. The first lines of the input say how a call is
// written. Prints the names of paths of which a query was answered otherwise, and how many queries and numbers there were.
#![tactic(auto)]

ghost use Rattle.std.specs.Prelude.{◌≡◌, length};

mod table;

use query_levels::{Buffers, Lengths};
use rules::{PathError, PathParam, PathRecord, number_answered};
use std::io;
use std::io::Read;
use table::Kind;
use test_common::seen;
use test_common::seen::{Trial, replay};
use test_input::read::Input;

fn next_path<R: Read>(input: &mut Input<R>) -> PathRecord {
    PathRecord {
        order: input.count(),
        segments: input.count(),
        axes: input.count(),
        s_min: PathParam(input.float()),
        s_max: PathParam(input.float()),
        inv_ds: input.float(),
        mode: input.mode(),
    }
}

fn next_lengths<R: Read>(input: &mut Input<R>) -> Lengths {
    Lengths {
        q: input.small(),
        dq: input.small(),
        ddq: input.small(),
        dddq: input.small(),
    }
}

// By which entry point a query is asked.
#[derive(Clone, Copy)]
enum Entry {
    EvalAt,
    EvalPath,
}

impl From<usize> for Entry {
    // (It stays beside `mode` of crates/test_input: what is alike is that a 1 is asked for.)
    fn from(number: usize) -> Entry {
        if number == 1 {
            Entry::EvalPath
        } else {
            Entry::EvalAt
        }
    }
}

// What a query is asked, how many cells each buffer has, and what is to come out: the number, and how many cells of each buffer are
// written. (The level stays a number, since trials ask for levels that there are not.)
#[derive(Clone, Copy)]
struct Query {
    s: PathParam,
    entry: Entry,
    level: u8,
    lent: Lengths,
    number: usize,
    written: Lengths,
}

fn next_query<R: Read>(input: &mut Input<R>) -> Query {
    Query {
        s: PathParam(input.cell()),
        entry: Entry::from(input.small()),
        level: (input.small() % 256) as u8,
        lent: next_lengths(input),
        number: input.small(),
        written: next_lengths(input),
    }
}

// (A function of its own, so that what a query ensures is kept out of its callers' proofs. The `match` stays: the input says by a number
// which entry point is meant, so closures would be chosen by the same two cases. What it hands on stays apart, as both take it.)
fn asked(
    query: Query,
    path: PathRecord,
    coeffs: &[f64],
    buffers: &mut Buffers,
) -> Result<(), PathError> {
    match query.entry {
        Entry::EvalPath => query_path::eval_path(path, coeffs, query.s, query.level, buffers),
        Entry::EvalAt => query::eval_at(path, coeffs, query.s, query.level, buffers),
    }
}

// (After a part of an array was lent, only a parameter's type tells the prover its length again.)
fn judged<R: Read>(
    trial: &mut Trial<R>,
    query: Query,
    number: u32,
    q: &[f64; 32],
    dq: &[f64; 32],
    ddq: &[f64; 32],
    dddq: &[f64; 32],
) {
    trial.called(number as usize == query.number);
    trial.cells(q, query.written.q);
    trial.cells(dq, query.written.dq);
    trial.cells(ddq, query.written.ddq);
    trial.cells(dddq, query.written.dddq);
}

fn filled() -> [f64; 32]
    ensures { 32 ≡ length result }
{
    let mut cells = [0.0; 32];
    seen::fill(&mut cells);
    cells
}

// There is room for 16 cells in each buffer. What is more is cut off.
fn call<R: Read>(trial: &mut Trial<R>, path: PathRecord, coeffs: &[f64]) {
    let query = next_query(&mut trial.input);
    let mut q = filled();
    let mut dq = q;
    let mut ddq = q;
    let mut dddq = q;
    let mut buffers = Buffers {
        q: &mut q[8..8 + query.lent.q.min(16)],
        dq: &mut dq[8..8 + query.lent.dq.min(16)],
        ddq: &mut ddq[8..8 + query.lent.ddq.min(16)],
        dddq: &mut dddq[8..8 + query.lent.dddq.min(16)],
    };
    let number = number_answered(asked(query, path, coeffs, &mut buffers));
    judged(trial, query, number, &q, &dq, &ddq, &dddq);
}

// There is room for 16400 coefficients. What is more is cut off.
fn along<R: Read>(trial: &mut Trial<R>) {
    let path = next_path(&mut trial.input);
    let n = trial.input.count().min(16400);
    let kind = Kind::from(trial.input.count());
    let seed = trial.input.count();
    let mut table = [0.0; 16400];
    table::fill(&mut trial.input, &mut table[0..n], kind, seed);
    for _ in 0..trial.input.count() {
        call(trial, path, &table[0..n]);
    }
}

// (Each program stays with a main of its own, which names the step that is its own.)
fn main(rt: HostRuntime) -> io::Result<()> {
    replay(&rt, rt.stdin(), |trial| along(trial))
}
