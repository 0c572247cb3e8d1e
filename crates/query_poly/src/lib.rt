// The evaluation of one segment's coefficients a at t: the position, and the derivatives that a level asks
// for, in segment units. Those that it does not ask for are 0 and are not worked out. (Level, coefficients and t stay three
// parameters, as crates/query_steps says.)
#![tactic(auto)]

ghost use Rattle.std.specs.Prelude.{◌≡◌, ◌+◌, T, length};
ghost use Rattle.rules.specs.Build.{valid_order};
ghost use Rattle.rules.specs.Query.{general_loop, loop_derivative, eval_poly};
ghost use Rattle.query_levels.specs.Levels.{level_number};
ghost use Rattle.query_loop.specs.Level.{asked};

use query_levels::Level;
use query_loop::Derivatives;
use query_steps::{cubic, quintic};

// R27: order 7, by the general loop.
#[tactic(auto, using(crate::proofs::GeneralLoop::by_coefficients))]
fn general(level: Level, a: &[f64], t: f64) -> Derivatives
    requires { length a.now ≡ 8 }
    ensures { result ≡ asked (level_number level) (loop_derivative (general_loop t a.now)) }
{
    let mut b = Derivatives::position(a[7]);
    for &x in a[..7].iter().rev() {
        b = b.step(level, t, x);
    }
    b
}

// R26, R27: a segment's coefficients at t, by its order. The general loop is called with each level as a constant, so
// that the compiler makes one for each, and nothing is asked inside. (An order stays a number, as the path record has it: an enum
// would be made of it at each call. The match stays: of a table of functions it would have to be proved which one an
// order has.)
#[tactic(auto, unfolding(rules::specs::Build::valid_order, rules::specs::Query::eval_poly))]
pub fn eval_poly(order: usize, level: Level, a: &[f64], t: f64) -> Derivatives
    requires { T (valid_order order) × (length a.now ≡ order + 1) }
    ensures { result ≡ asked (level_number level) (eval_poly order a.now t) }
{
    match order {
        3 => cubic(level, a, t),
        5 => quintic(level, a, t),
        _ => match level {
            Level::Positions => general(Level::Positions, a, t),
            Level::UpToSecond => general(Level::UpToSecond, a, t),
            Level::UpToThird => general(Level::UpToThird, a, t),
        },
    }
}
