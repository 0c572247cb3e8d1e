// From a number's leading bits, the last of them sticky, to the float that the number rounds to.
//
// Each contract speaks of every number that the bits stand for: x / v, where the word or words are
// x / v with a sticky last bit. So no function here has to know what was cut off.
#![tactic(auto)]

ghost use Rattle.std.specs.Prelude.{◌≡◌, ℕ, ◌+◌, ◌*◌, ◌^◌, ◌≤◌, ◌<◌};
ghost use Rattle.std.specs.Float.{binary64};
ghost use Rattle.std.specs.Float.Ieee.{round};
ghost use Rattle.std.specs.Float.Ieee.Nearest.{closest};
ghost use Rattle.law_rounding.specs.Sticky.{Sticky};
ghost use Rattle.fused_words.specs.Words.{value};
ghost use Rattle.fused_pack.specs.Rounds.{Patterned, Rounds};

use fused_words::{HIDDEN, Words, marked, shifted_word, signed};

// G1, R29: w / 2^11, rounded: to the nearest whole number, and at a tie to the even one.
fn nearest(w: u64) -> u64
    ensures { result ≡ closest w (2 ^ 11) }
{
    w / 0x800 + (w % 0x800 + 0x3ff + w / 0x800 % 2) / 0x800
}

// The float whose digits are w / 2^11, rounded, with k zeros after them, in units of the smallest
// one. The digits are added to the exponent's field: the leading one counts as 1 there, and a carry
// out of them moves on into the field and, at the top, makes the infinity.
fn pattern(negative: bool, w: u64, k: u64) -> f64
    requires { k < 4000 }
    ensures { result ≡ Patterned negative w k }
{
    signed(
        negative,
        (k * HIDDEN + nearest(w)).min(0x7ff0_0000_0000_0000),
    )
}

// w * 2^g / 2^2336, rounded. Below g = 1251 the last bit of w that is kept would weigh less than
// the smallest float, so that w is cut further first.
fn rounded(negative: bool, w: u64, g: u64) -> f64
    requires { (2 ^ 63 ≤ w) × (g < 5000) }
    ensures { (v x : ℕ) → 0 < v → Sticky v x w → result ≡ round binary64 negative (x * 2 ^ g) (v * 2 ^ 2336) }
{
    if g < 1251 {
        pattern(negative, shifted_word(w, 1251 - g), 0)
    } else {
        pattern(negative, w, g - 1251)
    }
}

// `words` * 2^`exponent`, with its sign. The sign stays a bool beside the words, as in a float: a zero has one, too, and a type of signed
// numbers of two words would be this pair again. (An enum of two signs would be made of the bits, and compared, where two bools are.)
#[derive(Clone, Copy)]
pub struct Term {
    pub negative: bool,
    pub words: Words,
    pub exponent: u64,
}

impl Term {
    // The term / 2^2336, rounded, from the 64 bits that start at the leading one.
    fn leading(self) -> f64
        requires { (0 < self.words.high) × (self.exponent < 4900) }
        ensures { (v x : ℕ) → 0 < v → Sticky v x (value self.words)
            → result ≡ round binary64 self.negative (x * 2 ^ self.exponent) (v * 2 ^ 2336) }
    {
        let Words { high, low } = self.words;
        let zeros = u64::leading_zeros(high) as u64;
        let w = (high << zeros) + ((low >> 1) >> (63 - zeros));
        rounded(
            self.negative,
            marked(w, low << zeros),
            self.exponent + 64 - zeros,
        )
    }

    // The term / 2^2272, rounded. A number of one word has to be exact: its last bit is not the last of 64.
    pub fn rounded(self) -> f64
        requires { (0 < value self.words) × (self.exponent < 4800) }
        ensures { Rounds self result }
    {
        let Words { high, low } = self.words;
        let term = if high == 0 {
            Term {
                words: Words { high: low, low: 0 },
                ..self
            }
        } else {
            Term {
                exponent: self.exponent + 64,
                ..self
            }
        };
        term.leading()
    }
}
