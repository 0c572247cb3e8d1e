// The table of coefficients that a kind and a seed stand for, as compare/queries.rs makes it: from the seed on
// each number is 48271 times the last one, modulo 2^31 - 1, and two of them in turn are the 62 binary digits of
// a coefficient.
ghost use Rattle.std.specs.Prelude.{◌<◌};

use std::io::Read;
use test_input::bits;
use test_input::read::Input;

fn next(x: u64) -> u64
    ensures { result < 2147483648 }
{
    x % 0x7fff_ffff * 48271 % 0x7fff_ffff
}

// What coefficients a table has.
#[derive(Clone, Copy)]
pub enum Kind {
    // magnitudes of 1/16 to 16, of 2^-32 to 2^31, and any exponent
    Near,
    Far,
    Any,
    // whole numbers within 20
    Whole,
    Special,
    // those that stand in the input
    Listed,
}

impl From<usize> for Kind {
    fn from(number: usize) -> Kind {
        match number {
            1 => Kind::Far,
            2 => Kind::Any,
            3 => Kind::Whole,
            4 => Kind::Special,
            5 => Kind::Listed,
            _ => Kind::Near,
        }
    }
}

impl Kind {
    // Of coefficients that are not special, whole or listed.
    fn exponent(self, digits: u64) -> u64 {
        match self {
            Kind::Far => 991 + digits / 0x100_0000_0000_0000 % 64,
            Kind::Any => digits / 0x4_0000_0000_0000 % 2047,
            _ => 1019 + digits / 2 % 8,
        }
    }

    // The last digit is the sign, and some above it are the fraction.
    fn ordinary(self, digits: u64) -> f64 {
        let sign = digits % 2 * 0x8000_0000_0000_0000;
        let fraction = digits / 16 % 0x10_0000_0000_0000;
        bits::float(sign + self.exponent(digits) % 0x800 * 0x10_0000_0000_0000 + fraction)
    }

    fn coefficient<R: Read>(self, input: &mut Input<R>, digits: u64) -> f64 {
        match self {
            Kind::Whole => std::num::nearest_u64_to_f64(digits % 41) - 20.0,
            Kind::Special => special(digits),
            Kind::Listed => input.cell(),
            _ => self.ordinary(digits),
        }
    }
}

// NaNs, infinities, zeros, the greatest and the least, among ordinary ones.
fn special(digits: u64) -> f64 {
    match digits / 0x100_0000_0000_0000 {
        0 => f64::NAN,
        1 => f64::INFINITY,
        2 => f64::NEG_INFINITY,
        3 => 0.0,
        4 => -0.0,
        5 => 1.7976931348623157e308,
        6 => 5e-324,
        _ => Kind::Near.ordinary(digits),
    }
}

pub fn fill<R: Read>(input: &mut Input<R>, table: &mut [f64], kind: Kind, seed: usize) {
    let mut x = seed as u64;
    for cell in table {
        let high = next(x);
        x = next(high);
        *cell = kind.coefficient(input, high * 0x8000_0000 + x);
    }
}
