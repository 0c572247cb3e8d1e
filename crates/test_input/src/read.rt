// Calls and expected answers, read as pieces of fixed width from a reader: from standard input, in the programs. A line
// of 67 characters is a call's name, or a remark, which starts with '#'. A line of 33 characters is a field: what it is,
// in at most 13, and a number at the right end: a whole one in decimal, or a float by the 16 hexadecimal digits of its
// bits. A list of floats has 16 such digits for each, and behind it one character more, a space or a line's end; a small
// number has 3 decimal digits, and one character more; an integer has 20 characters, its decimal digits at the right end
// with the minus before them, and one character more.
//
// What is read of each width stays a function, a line each, so that a program says what it reads and the widths stand here alone.
ghost use Rattle.std.specs.Prelude.{◌≤◌, ◌<◌, length};

use crate::bits;
use rules::OutOfRangeMode;
use std::io::Read;

// Reads until a list is full, the input ends or a read fails, and returns how many bytes it put at the list's start. (The loop stays:
// std's read_exact and io::copy hand back no count where a read fails, which here ends the input.)
pub fn full<R: Read>(reader: &mut R, list: &mut [u8]) -> usize
    ensures { result ≤ length list.new }
{
    let mut done = 0;
    while done < list.len() {
        match reader.read(&mut list[done..]) {
            Ok(0) => return done,
            Ok(n) => done += n,
            Err(_) => return done,
        }
    }
    done
}

// A call's name, and how many characters there were: fewer than 68 at the end of the input. (Their number stays beside the text: none
// is the input's end, and some, but fewer than 68, are a fault.)
#[derive(Clone, Copy)]
pub struct Name {
    pub text: [u8; 68],
    pub length: usize,
}

impl Name {
    pub fn is_remark(&self) -> bool {
        self.text[0] == b'#'
    }
}

// That of the least i64: 2^63. (It stays apart from a float's sign bit, `SIGN` of crates/fused_words.)
const MIN_MAGNITUDE: u64 = 0x8000_0000_0000_0000;

// A number as it is read. (The minus stays a flag: it is asked once, in `signed`, where an enum of two signs would be matched.)
#[derive(Clone, Copy, Default)]
struct Number {
    magnitude: u64,
    is_negative: bool,
}

fn digit(c: u8) -> u64 {
    if c < b'a' {
        u64::from(c % 16)
    } else {
        u64::from((c - b'a') % 6 + 10)
    }
}

impl Number {
    // What stands below '0', as a space and a minus do, is no digit. (The remainder is by 2^64 / RADIX, rounded up, so that the product
    // fits. It stays beside `wrapping_mul`, which reads other numbers where there are more digits than fit, from 18446744073709551620 on:
    // each input is to stay the trial that it is.)
    fn with<const RADIX: u64>(self, c: u8) -> Number
        requires { 0 < RADIX }
    {
        if c < b'0' {
            return Number {
                magnitude: self.magnitude,
                is_negative: c == b'-',
            };
        }
        Number {
            magnitude: (self.magnitude % u64::MAX.div_ceil(RADIX) * RADIX).wrapping_add(digit(c)),
            is_negative: self.is_negative,
        }
    }

    // The number whose digits these are.
    fn of<const RADIX: u64>(digits: &[u8]) -> Number
        requires { 0 < RADIX }
    {
        digits.iter().fold(
            Number::default(),
            |n, &c|
                requires { 0 < RADIX }
            { n.with::<RADIX>(c) },
        )
    }

    // The least i64 as it is written; of any other number the remainder by 2^63, with its sign. (It stays beside `cast_signed` and
    // `wrapping_neg`, which read other numbers where one is no i64, as 9223372036854775808 is none; the reason is that above.)
    fn signed(self) -> i64 {
        let rest = (self.magnitude % MIN_MAGNITUDE) as i64;
        if !self.is_negative {
            rest
        } else if self.magnitude == MIN_MAGNITUDE {
            i64::MIN
        } else {
            -rest
        }
    }
}

// What the programs read from.
#[derive(Drop)]
pub struct Input<R: Read> {
    pub reader: R,
}

impl<R: Read> Input<R> {
    pub fn name(&mut self) -> Name {
        let mut text = [0; 68];
        let length = full(&mut self.reader, &mut text);
        Name { text, length }
    }

    // A line of so many characters, its end among them: the number whose digits stand in it from a place on.
    fn digits<const WIDTH: usize, const RADIX: u64>(&mut self, from: usize) -> Number
        requires inside { (from < WIDTH) × (WIDTH < 100) }
        requires radix { 0 < RADIX }
    {
        let mut line = [0; WIDTH];
        full(&mut self.reader, &mut line);
        let line = &line[..];
        Number::of::<RADIX>(&line[from..WIDTH - 1])
    }

    // A field with a whole number.
    pub fn count(&mut self) -> usize {
        self.digits::<34, 10>(13).magnitude as usize
    }

    // A field with a float.
    pub fn float(&mut self) -> f64 {
        bits::float(self.digits::<34, 16>(17).magnitude)
    }

    // A field with a mode: 0 Error, 1 Clamp. (It stays a function: it reads the number, and neither type is this crate's.)
    pub fn mode(&mut self) -> OutOfRangeMode {
        if self.count() == 1 {
            OutOfRangeMode::Clamp
        } else {
            OutOfRangeMode::Error
        }
    }

    // The next float of a list.
    pub fn cell(&mut self) -> f64 {
        bits::float(self.digits::<17, 16>(0).magnitude)
    }

    // A small number.
    pub fn small(&mut self) -> usize {
        self.digits::<4, 10>(0).magnitude as usize
    }

    // The next integer of a list.
    pub fn integer(&mut self) -> i64 {
        self.digits::<21, 10>(0).signed()
    }

    // The same where it is not below 0.
    pub fn natural(&mut self) -> usize {
        self.digits::<21, 10>(0).magnitude as usize
    }

    // So many items of a list, each read by `next`, put at the start of another. (Their number stays beside the list: the input says
    // it, and may say more than there is room for.)
    pub fn list<T: Copy, F: FnMut(&mut Self) -> T>(&mut self, list: &mut [T], n: usize, mut next: F)
        requires { F.IsAlwaysCallable next }
    {
        for item in list.iter_mut().take(n) {
            *item = next(self);
        }
    }

    // So many bytes, put at the start of a list, as far as there is room: how many there is room for. (Their number stays beside the
    // list, as above.)
    pub fn bytes(&mut self, list: &mut [u8], n: usize) -> usize
        ensures { result ≤ length list.new }
    {
        let room = n.min(list.len());
        full(&mut self.reader, &mut list[0..room]);
        room
    }
}
