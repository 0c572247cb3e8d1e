// What C and Rust call to multiply and add with one rounding. Its promise is for all operands.
#![tactic(auto)]

ghost use Rattle.std.specs.Prelude.{◌≡◌};
ghost use Rattle.std.specs.Float.{binary64};
ghost use Rattle.rules.specs.Fused.{fused};

// A1, R29: a * b + c with one rounding (document 01, module 1). (The operands stay three floats, as the header has them for C.)
#[unsafe(no_mangle)]
pub extern "C" fn spline_mul_add(a: f64, b: f64, c: f64) -> f64
    ensures { result ≡ fused binary64 a b c }
{
    fused::mul_add(a, b, c)
}
