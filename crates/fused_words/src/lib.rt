// Numbers of two words, for the fused multiply-add: exact products, sums and differences, and a shift to the
// right that keeps in its last bit whether something was shifted out.
#![tactic(auto)]

ghost use Rattle.std.specs.Prelude.{◌≡◌, ◌+◌, ◌-◌, ◌*◌, ◌/◌, ◌^◌, ◌<◌, ◌≤◌, cond};
ghost use Rattle.std.specs.Float.{binary64};
ghost use Rattle.std.specs.Float.Ieee.{hid, ones, top, of_bits};
ghost use Rattle.std.specs.Ordering.{nat_cmp};
ghost use Rattle.law_rounding.specs.Sticky.{Sticky};
ghost use Rattle.fused_words.specs.Words.{value};

use std::cmp::Ordering;

// The weight of a float's sign bit, and of its exponent's field: which is that of the leading digit, too, where
// the digits are a whole number. (It stays apart from the 2^63 of crates/test_input, which is a number's size.)
pub const SIGN: u64 = 0x8000_0000_0000_0000;

pub const HIDDEN: u64 = 0x10_0000_0000_0000;

// The float of these bits, with this sign.
pub fn signed(negative: bool, bits: u64) -> f64
    requires { bits ≤ ones binary64 * hid binary64 }
    ensures { result ≡ of_bits binary64 (cond negative (top binary64) 0 + bits) }
{
    f64::from_bits(negative as u64 * SIGN + bits)
}

// x with its last bit set, unless rest is 0: a sticky last bit.
pub fn marked(x: u64, rest: u64) -> u64
    ensures { (rest ≡ 0 → result ≡ x) × (0 < rest → result ≡ x / 2 * 2 + 1) }
{
    if rest == 0 { x } else { x / 2 * 2 + 1 }
}

// x / 2^n, with a sticky last bit.
pub fn shifted_word(x: u64, n: u64) -> u64
    ensures { Sticky (2 ^ n) x result }
{
    if n < 64 {
        let q = x >> n;
        marked(q, x - (q << n))
    } else {
        marked(0, x)
    }
}

// `high` * 2^64 + `low`.
#[derive(Clone, Copy, PartialEq, Eq, PartialOrd, Ord)]
pub struct Words {
    pub high: u64,
    pub low: u64,
}

impl Words {
    // F4, R29: a * b. Each is cut into halves of 32 bits; of the four products the two in the middle have room
    // for their sum, and its lower half joins the lowest product modulo 2^64, with the carry noted.
    pub fn product(a: u64, b: u64) -> Words
        requires { (a < 2 ^ 63) × (b < 2 ^ 63) }
        ensures { value result ≡ a * b }
    {
        let a1 = a / 0x1_0000_0000;
        let a0 = a % 0x1_0000_0000;
        let b1 = b / 0x1_0000_0000;
        let b0 = b % 0x1_0000_0000;
        let middle = a1 * b0 + a0 * b1;
        let lowest = a0 * b0;
        let low = lowest.wrapping_add(middle % 0x1_0000_0000 * 0x1_0000_0000);
        let carry = (low < lowest) as u64;
        Words {
            high: a1 * b1 + middle / 0x1_0000_0000 + carry,
            low,
        }
    }

    // F4, R29: the low words are added modulo 2^64, and the carry is noted.
    pub fn sum(self, other: Words) -> Words
        requires { self.high + other.high < 2 ^ 63 }
        ensures { value result ≡ value self + value other }
    {
        let low = self.low.wrapping_add(other.low);
        let carry = (low < self.low) as u64;
        Words {
            high: self.high + other.high + carry,
            low,
        }
    }

    // The low words are subtracted modulo 2^64, and the borrow is noted.
    pub fn difference(self, other: Words) -> Words
        requires { value other ≤ value self }
        ensures { value result ≡ value self - value other }
    {
        let low = self.low.wrapping_sub(other.low);
        let borrow = (self.low < other.low) as u64;
        Words {
            high: self.high - other.high - borrow,
            low,
        }
    }

    // The number / 2^n, with a sticky last bit.
    pub fn shifted(self, n: u64) -> Words
        ensures { Sticky (2 ^ n) (value self) (value result) }
    {
        if n == 0 {
            return self;
        }
        if n < 64 {
            let q = self.low >> n;
            let low = (self.high << (64 - n)) + q;
            Words {
                high: self.high >> n,
                low: marked(low, self.low - (q << n)),
            }
        } else {
            Words {
                high: 0,
                low: shifted_word(marked(self.high, self.low), n - 64),
            }
        }
    }

    // Which of the two is the greater number.
    pub fn order(self, other: Words) -> Ordering
        ensures { result ≡ nat_cmp (value self) (value other) }
    {
        self.cmp(&other)
    }
}
