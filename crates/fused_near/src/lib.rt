// The common case of the fused multiply-add, without a search for the leading bit: both factors are of ordinary size, and the
// addend's last bit is no lower than the product's. Then product and addend fit two words together,
// with nothing cut off but the last bits of a product that lies far below the addend; and the
// machine's own conversion and addition of floats round the result.
#![tactic(auto)]

ghost use Rattle.std.specs.Prelude.{◌≡◌, ℕ, ◌+◌, ◌-◌, ◌*◌, ◌%◌, ◌^◌, ◌≤◌, ◌<◌, ◌⊎◌, true, false, cond};
ghost use Rattle.std.specs.Float.Ieee.Exact.{HasValue};
ghost use Rattle.law_rounding.specs.Sticky.{Sticky};
ghost use Rattle.fused_words.specs.Words.{value};
ghost use Rattle.fused_near.specs.Biased.{biased_sum, Converts};

use fused_words::{HIDDEN, Words, marked, signed};

// What the high word of a sum carries more, so that a negative sum is a number of two words too.
const BIAS: u64 = 0x8_0000_0000_0000;

// The digits of a normal float, by its bits.
fn significand(bits: u64) -> u64
    ensures { result ≡ 2 ^ 52 + bits % 2 ^ 52 }
{
    HIDDEN + bits % HIDDEN
}

// m * 2^n.
fn lifted(m: u64, n: u64) -> Words
    requires { n < 64 }
    ensures { value result ≡ m * 2 ^ n }
{
    Words {
        high: (m >> 1) >> (63 - n),
        low: m << n,
    }
}

// 2^(field + 51), in units of the smallest float, with the sign.
fn power(negative: bool, field: u64) -> f64
    requires { (0 < field) × (field < 2047) }
    ensures { HasValue result negative (2 ^ (field + 51)) (2 ^ 1074) }
{
    signed(negative, field * HIDDEN)
}

// Whether the fields of the factors' exponents, and the places that the addend's last digit is above
// the product's, are of the common case.
pub fn common(fx: u64, fy: u64, above: u64) -> bool
    ensures { result ≡ true → (600 ≤ fx) × (fx < 1450) × (600 ≤ fy) × (fy < 1450) × (above < 126) }
{
    (600..1450).contains(&fx) && (600..1450).contains(&fy) && above < 126
}

// By how much the product has to be shifted, so that an addend so many places above it has room.
pub fn excess(above: u64) -> u64
    ensures { result ≡ above - 62 }
{
    above.saturating_sub(62)
}

// 2^115 + p + c, or 2^115 + p - c. Both are worked out, since which is wanted is hard to foresee.
fn sum_or_difference(like: bool, p: Words, c: Words) -> Words
    requires { (p.high < 2 ^ 50) × (c.high < 2 ^ 51) }
    ensures { value result ≡ cond like (2 ^ 115 + value p + value c) (2 ^ 115 + value p - value c) }
{
    let p = Words {
        high: BIAS + p.high,
        ..p
    };
    let sum = p.sum(c);
    let difference = p.difference(c);
    if like { sum } else { difference }
}

// Whether a biased high word stands for a number of four or more, or of minus four or less: then the
// words hold two bits more than a float does.
pub fn long(high: u64) -> bool
    ensures { result ≡ true → (2 ^ 51 + 4 ≤ high) ⊎ (high + 4 ≤ 2 ^ 51) }
{
    high <= BIAS - 4 || BIAS + 4 <= high
}

// A sum that carries 2^115 more, of a product and an addend.
#[derive(Clone, Copy)]
pub struct Biased {
    pub words: Words,
    pub ghost short: { words.high < 2 ^ 53 },
}

impl Biased {
    // The product of a and b shifted by far places, with a sticky last bit, and c added or subtracted, and
    // 2^115 more, by their bits: in units of the shifted product's last digit, which is n places below the
    // addend's.
    pub fn sum(like: bool, x: u64, y: u64, z: u64, n: u64, far: u64) -> Biased
        requires { n < 63 }
        ensures { (p : ℕ) × Sticky (2 ^ far) ((2 ^ 52 + x % 2 ^ 52) * (2 ^ 52 + y % 2 ^ 52)) p × (value result.words ≡ biased_sum like p z n) }
    {
        let p = Words::product(significand(x), significand(y)).shifted(far);
        let c = lifted(significand(z), n);
        Biased {
            words: sum_or_difference(like, p, c),
        }
    }

    // The high word without the 2^51 that it carries more.
    fn unbiased(self) -> f64
        ensures { (2 ^ 51 < self.words.high → HasValue result false (self.words.high - 2 ^ 51) 1)
            × (self.words.high < 2 ^ 51 → HasValue result true (2 ^ 51 - self.words.high) 1) }
    {
        (self.words.high as i64 - BIAS as i64) as f64
    }

    // The float nearest to the sum in units of 2^(e - 2150), where the sign is the product's. Both words
    // are floats, but for the last bits of the low one, which are left to a sticky bit: the sum is the only
    // operation that rounds.
    pub fn converted(self, negative: bool, e: u64) -> f64
        requires { (1200 ≤ e) × (e < 3000) }
        ensures { Converts negative self.words e result }
    {
        let low = self.words.low;
        let l = marked(low / 0x800, low % 0x800) as f64;
        self.unbiased() * power(negative, e - 1063) + l * power(negative, e - 1116)
    }
}
