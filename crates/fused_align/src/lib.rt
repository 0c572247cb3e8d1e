// The sum of two numbers of two words each, at two exponents, rounded once.
#![tactic(auto)]

ghost use Rattle.std.specs.Prelude.{◌≡◌, ◌<◌, ◌≤◌};
ghost use Rattle.fused_align.specs.Placed.{Placed, added};
ghost use Rattle.fused_words.specs.Words.{value};

use fused_pack::Term;
use std::cmp::Ordering;

// R29, R30: the sum over 2^2272, where the exponent of `upper` is no less. The lower one is shifted to the
// other's exponent, and what is shifted out stays visible in its last bit. It comes to that only
// from a shift of three on, and then the sum keeps its leading bits. Else all of this is exact, even
// where nearly all bits cancel.
fn aligned(upper: Term, lower: Term) -> f64
    requires { Placed (value upper.words) × Placed (value lower.words) × (lower.exponent ≤ upper.exponent) × (upper.exponent < 4800) }
    ensures { result ≡ added upper lower }
{
    let lower = Term {
        words: lower.words.shifted(upper.exponent - lower.exponent),
        exponent: upper.exponent,
        ..lower
    };
    let sum = if upper.negative == lower.negative {
        Term {
            words: upper.words.sum(lower.words),
            ..upper
        }
    } else {
        match upper.words.order(lower.words) {
            Ordering::Greater => Term {
                words: upper.words.difference(lower.words),
                ..upper
            },
            Ordering::Less => Term {
                words: lower.words.difference(upper.words),
                ..lower
            },
            Ordering::Equal => return 0.0,
        }
    };
    sum.rounded()
}

// x + y over 2^2272.
pub fn rounded_sum(x: Term, y: Term) -> f64
    requires { Placed (value x.words) × Placed (value y.words) × (x.exponent < 4800) × (y.exponent < 4800) }
    ensures { result ≡ added x y }
{
    let ordered = if x.exponent < y.exponent {
        (y, x)
    } else {
        (x, y)
    };
    aligned(ordered.0, ordered.1)
}
