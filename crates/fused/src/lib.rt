// The fused multiply-add, module 1 of document 01: a * b + c with one rounding, for all operands.
#![tactic(auto)]

ghost use Rattle.std.specs.Prelude.{◌≡◌};
ghost use Rattle.std.specs.Float.{binary64};
ghost use Rattle.rules.specs.Fused.{fused};

use fused_general::{exponent_field, general};
use fused_near::Biased;
use fused_words::SIGN;

// A1, G2, R29, R30, R31: a * b + c with one rounding, as IEEE 754's fusedMultiplyAdd. A NaN has no bits to look at.
// (The operands stay three floats, as crates/fused_general says.)
pub fn mul_add(a: f64, b: f64, c: f64) -> f64
    ensures { result ≡ fused binary64 a b c }
{
    if !a.is_nan() && !b.is_nan() && !c.is_nan() {
        let x = f64::to_bits(a);
        let y = f64::to_bits(b);
        let z = f64::to_bits(c);
        let fx = exponent_field(x);
        let fy = exponent_field(y);
        let above = (exponent_field(z) + 1075).wrapping_sub(fx + fy);
        if fused_near::common(fx, fy, above) {
            let negative = (SIGN <= x) != (SIGN <= y);
            let like = negative == (SIGN <= z);
            let far = fused_near::excess(above);
            let sum = Biased::sum(like, x, y, z, above - far, far);
            if fused_near::long(sum.words.high) {
                return sum.converted(negative, fx + fy + far);
            }
        }
    }
    general(a, b, c)
}
