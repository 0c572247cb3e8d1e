// What was seen: expected answers are read and compared with what a call gave, and counted.
use std::io;
use std::io::Read;
use test_input::bits;
use test_input::read::{Input, Name};

// The calls there were, the numbers that were compared, and those that were not as expected. (Sums that wrap: nothing is
// to be proved of them, and they never get that far.)
#[derive(Clone, Copy, Default)]
pub struct Seen {
    pub calls: u64,
    pub numbers: u64,
    pub unlike: u64,
}

// What the cells of a buffer hold before a call: no two are alike, and none is likely to be written.
const FIRST: f64 = -8765432.25;

pub fn fill(cells: &mut [f64]) {
    let mut x = FIRST;
    for cell in cells {
        *cell = x;
        x = x + 1.0;
    }
}

// A program's input, and what was seen so far.
#[derive(Drop)]
pub struct Trial<R: Read> {
    pub input: Input<R>,
    pub seen: Seen,
}

impl<R: Read> Trial<R> {
    // Something is as expected, or is not.
    fn judged(&mut self, is_like: bool) {
        self.seen.unlike = self.seen.unlike.wrapping_add(u64::from(!is_like));
    }

    // A number that is as expected, or is not.
    pub fn compared(&mut self, is_like: bool) {
        self.seen.numbers = self.seen.numbers.wrapping_add(1);
        self.judged(is_like);
    }

    // A call more, and its first number.
    pub fn called(&mut self, is_like: bool) {
        self.seen.calls = self.seen.calls.wrapping_add(1);
        self.compared(is_like);
    }

    // A call more, and the number that it answered, beside the next field.
    pub fn answered(&mut self, number: u32) {
        let expected = self.input.count();
        self.called(number as usize == expected);
    }

    // A whole number beside the next field.
    pub fn whole(&mut self, n: usize) {
        let expected = self.input.count();
        self.compared(n == expected);
    }

    // A float beside the next field.
    pub fn float(&mut self, x: f64) {
        let expected = self.input.float();
        self.compared(bits::same(x, expected));
    }

    // The array that a buffer is lent of from the ninth cell on, beside the next list of so many floats. All other cells have
    // to be as they were. (So the number of those that were written stays beside the whole array.)
    pub fn cells(&mut self, cells: &[f64], written: usize) {
        let mut before = FIRST;
        for (i, &cell) in cells.iter().enumerate() {
            if 8 <= i && i - 8 < written {
                let expected = self.input.cell();
                self.compared(bits::same(cell, expected));
            } else {
                self.judged(bits::same(cell, before));
            }
            before = before + 1.0;
        }
    }
}

// Prints the name of a call of which something was not as expected.
fn named<P: Print>(printer: &P, name: Name) -> io::Result<()> {
    printer.write_all(b"not as expected: ")?;
    printer.write_all(&name.text)
}

// A program: each call of the input is made by `call`, which compares what it gives with what stands behind it. The last line
// that it prints says how much was seen. (A proved loop has to end, and nothing says that the input does. So it ends at a number
// of lines that the input does not reach.)
pub fn replay<P: Print, R: Read + Drop, F: Fn(&mut Trial<R>)>(
    printer: &P,
    reader: R,
    call: F,
) -> io::Result<()>
    requires { F.IsAlwaysCallable call }
{
    let mut trial = Trial {
        input: Input { reader },
        seen: Seen::default(),
    };
    for _ in 0..100000u32 {
        let name = trial.input.name();
        if name.length != 68 {
            trial.judged(name.length == 0);
            break;
        }
        let unlike = trial.seen.unlike;
        if !name.is_remark() {
            call(&mut trial);
        }
        if trial.seen.unlike != unlike {
            named(printer, name)?;
        }
    }
    let seen = trial.seen;
    println!(printer;
        "{} calls, {} numbers, {} unlike",
        seen.calls, seen.numbers, seen.unlike
    )
}
