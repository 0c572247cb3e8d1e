// J9: the program that reads a job sheet from standard input and prints its table or its refusal, as document 02's Wish 1 has it.
// What it prints is sheet_print::print_sheet's to say, whatever the bytes are.
#![tactic(auto)]

ghost use Rattle.std.specs.Prelude.{◌≤◌, length, IfOk};

use sheet_print::{MOST_BYTES, MOST_CELLS};
use std::io;
use std::io::Read;

// Reads until a list is full or the input ends, and returns how many bytes it put at the list's start. (The loop stays beside std's
// `io::copy`, which tries an interrupted read again: here it is the program's error, as any other that fails. `io::copy` also reads
// through a second buffer, which it sets to zero for each read.)
fn read_full<R: Read>(reader: &mut R, list: &mut [u8]) -> io::Result<usize>
    ensures { IfOk result (λ n. n ≤ length list.new) }
{
    let mut done = 0;
    while done < list.len() {
        let n = reader.read(&mut list[done..])?;
        if n == 0 {
            return Ok(done);
        }
        done += n;
    }
    Ok(done)
}

// (The arrays are made and lent apart: the prover knows the length of one that is a parameter, and counts that of one just made.)
fn print<P: Print>(
    printer: &P,
    text: &[u8],
    coeffs: &mut [f64; MOST_CELLS],
    out: &mut [u8; MOST_BYTES],
) -> io::Result<()> {
    let count = sheet_print::print_sheet(text, coeffs, out).unwrap_or(0);
    printer.write_all(&out[..count.min(out.len())])
}

// J19: one byte more than a sheet may have is read, which tells a longer text. There is room for the longest table and output.
// A read that fails, or a write, is the program's error.
fn main(rt: HostRuntime) -> io::Result<()> {
    let mut text = [0; 32769];
    let mut coeffs = [0.0; MOST_CELLS];
    let mut out = [0; MOST_BYTES];
    let n = read_full(&mut rt.stdin(), &mut text)?;
    print(&rt, &text[..n], &mut coeffs, &mut out)
}
