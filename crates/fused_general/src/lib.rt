// The fused multiply-add in the general case: a * b + c with one rounding, whatever the operands are.
#![tactic(auto)]

ghost use Rattle.std.specs.Prelude.{◌≡◌, true};
ghost use Rattle.std.specs.Float.{binary64, float_is_finite};
ghost use Rattle.std.specs.Float.Ieee.{top};
ghost use Rattle.rules.specs.Fused.{fused};
ghost use Rattle.fused_general.specs.Bits.{field, magnitude, Nonzero, Unpacked, summed};

use fused_align::rounded_sum;
use fused_pack::Term;
use fused_words::{HIDDEN, SIGN, Words};

// The exponent's field, of a float's bits.
pub fn exponent_field(bits: u64) -> u64
    ensures { result ≡ field bits }
{
    bits % SIGN / HIDDEN
}

// The magnitude of a float: `digits` * 2^`exponent` / 2^1136.
#[derive(Clone, Copy)]
struct Parts {
    digits: u64,
    exponent: u64,
}

// The bits of a float that is finite and not zero.
#[derive(Clone, Copy)]
struct Operand {
    bits: u64,
    ghost nonzero: { Nonzero bits },
}

impl Operand {
    // The float's magnitude, with its leading digit at bit 62.
    fn unpacked(self) -> Parts
        ensures { Unpacked (magnitude self.bits) result.digits result.exponent }
    {
        let field = exponent_field(self.bits);
        let low = self.bits % HIDDEN;
        if field == 0 {
            let zeros = u64::leading_zeros(low) as u64;
            Parts {
                digits: low << (zeros - 1),
                exponent: 63 - zeros,
            }
        } else {
            Parts {
                digits: (HIDDEN + low) * 0x400,
                exponent: field + 51,
            }
        }
    }
}

// x * y + z.
fn of_operands(x: Operand, y: Operand, z: Operand) -> f64
    ensures { result ≡ summed x.bits y.bits z.bits }
{
    let a = x.unpacked();
    let b = y.unpacked();
    let c = z.unpacked();
    let product = Term {
        negative: (SIGN <= x.bits) != (SIGN <= y.bits),
        words: Words::product(a.digits, b.digits),
        exponent: a.exponent + b.exponent,
    };
    let addend = Term {
        negative: SIGN <= z.bits,
        words: Words {
            high: c.digits / 2,
            low: 0,
        },
        exponent: c.exponent + 1073,
    };
    rounded_sum(product, addend)
}

// R30: a * b + c of finite operands. With a zero factor the product needs no rounding. A zero addend leaves
// the rounded product, whose sign it must not change. (The operands stay three floats, as `general` says.)
fn of_finite(a: f64, b: f64, c: f64) -> f64
    requires { (float_is_finite a ≡ true) × (float_is_finite b ≡ true) × (float_is_finite c ≡ true) }
    ensures { result ≡ fused binary64 a b c }
{
    let x = f64::to_bits(a);
    let y = f64::to_bits(b);
    let z = f64::to_bits(c);
    if x % SIGN == 0 || y % SIGN == 0 {
        return a * b + c;
    }
    if z % SIGN == 0 {
        return a * b;
    }
    of_operands(
        Operand { bits: x },
        Operand { bits: y },
        Operand { bits: z },
    )
}

// R31: a * b + c with one rounding, for all operands. With a factor that is not finite the product needs no
// rounding. An infinite addend is the answer even where the product alone would overflow. (The operands stay three
// floats, as in Rust's mul_add: nothing ties them together, and a struct of them would be made at each call. It is not inlined, so that
// the common case, which callers inline, needs few registers.)
#[inline(never)]
pub fn general(a: f64, b: f64, c: f64) -> f64
    ensures { result ≡ fused binary64 a b c }
{
    if !a.is_finite() || !b.is_finite() {
        return a * b + c;
    }
    if !c.is_finite() {
        return c;
    }
    of_finite(a, b, c)
}
