// Has the job sheets that standard input has printed, read and built, and compares each answer with the one that stands behind its
// sheet: all bytes that are printed, number and place, and every cell of the buffer. The first lines of the input say how a trial
// is written. Prints the names of sheets that were answered otherwise, and how many calls there were.
#![tactic(auto)]

use rules::{PathError, PathRecord, SheetError};
use sheet_print::{MOST_BYTES, MOST_CELLS};
use std::io;
use std::io::Read;
use test_common::seen;
use test_common::seen::{Trial, replay};
use tezvorup_records::RawPlace;

// (Functions of their own, so that what the library ensures is kept out of their callers' proofs.)
fn printed(sheet: &[u8], coeffs: &mut [f64], out: &mut [u8]) -> Result<usize, PathError> {
    sheet_print::print_sheet(sheet, coeffs, out)
}

// So many cells are lent, behind the first eight.
fn built(sheet: &[u8], cells: &mut [f64], lent: usize) -> Result<PathRecord, SheetError> {
    let from = cells.len().min(8);
    let end = from + lent.min(cells.len() - from);
    sheet::build_sheet(sheet, &mut cells[from..end])
}

// A sheet's number and place, which is what C gets of the answer.
fn placed<R: Read, T: Copy>(trial: &mut Trial<R>, sheet: &[u8], answer: Result<T, SheetError>) {
    let place = RawPlace::of(sheet, answer);
    trial.answered(place.number);
    trial.whole(place.at);
}

// A build, with as many cells lent as the input says.
fn builds<R: Read>(trial: &mut Trial<R>, sheet: &[u8]) {
    let mut cells = [0.0; 16392];
    seen::fill(&mut cells);
    let lent = trial.input.count();
    placed(trial, sheet, built(sheet, &mut cells, lent));
    let written = trial.input.count();
    trial.cells(&cells, written);
}

// A sheet, and the output that it is to have.
#[derive(Clone, Copy)]
struct Served<'a> {
    sheet: &'a [u8],
    output: &'a [u8],
}

impl Served<'_> {
    // (Arrays are made and lent apart: the prover knows the length of one that is a parameter, and counts that of one just made.)
    fn prints_into<R: Read>(
        self,
        trial: &mut Trial<R>,
        coeffs: &mut [f64; MOST_CELLS],
        out: &mut [u8; MOST_BYTES],
    ) {
        let count = printed(self.sheet, coeffs, out);
        trial.called(count == Ok(self.output.len()) && out.starts_with(self.output));
    }

    fn prints<R: Read>(self, trial: &mut Trial<R>) {
        let mut coeffs = [0.0; MOST_CELLS];
        let mut out = [0; MOST_BYTES];
        self.prints_into(trial, &mut coeffs, &mut out);
    }

    // What is printed, the number and place, and two builds.
    fn serves<R: Read>(self, trial: &mut Trial<R>) {
        self.prints(trial);
        placed(trial, self.sheet, sheet::read_place(self.sheet));
        builds(trial, self.sheet);
        builds(trial, self.sheet);
    }
}

// There is room for a text that is too long by one byte, and for the longest output.
fn trial_in<R: Read>(trial: &mut Trial<R>, sheet: &mut [u8; 32769], output: &mut [u8; MOST_BYTES]) {
    let n = trial.input.count();
    let length = trial.input.bytes(sheet, n);
    let n = trial.input.count();
    let count = trial.input.bytes(output, n);
    let served = Served {
        sheet: &sheet[..length],
        output: &output[..count],
    };
    served.serves(trial);
}

fn trial<R: Read>(trial: &mut Trial<R>) {
    let mut sheet = [0; 32769];
    let mut output = [0; MOST_BYTES];
    trial_in(trial, &mut sheet, &mut output);
}

// (Each program stays with a main of its own, which names the step that is its own.)
fn main(rt: HostRuntime) -> io::Result<()> {
    replay(&rt, rt.stdin(), |each| trial(each))
}
