// The evaluation of a segment of order 3 and of one of order 5: each position and derivative by fused steps, those that the level
// asks for. (Level, coefficients and t stay three parameters: a struct of them would be made for each axis and taken apart at once.)
#![tactic(auto)]

ghost use Rattle.std.specs.Prelude.{◌≡◌, ◌≤◌, length};
ghost use Rattle.rules.specs.Query.{fused_steps, fused_derivative};
ghost use Rattle.query_levels.specs.Levels.{level_number};
ghost use Rattle.query_loop.specs.Level.{asked};

use fused::mul_add;
use query_levels::Level;
use query_loop::Derivatives;

// F2, R26: fused steps, from the last term down.
#[tactic(auto, using(crate::proofs::FusedSteps::by_terms))]
fn fused_steps<const N: usize>(t: f64, terms: [f64; N]) -> f64
    requires { 1 ≤ N }
    ensures { result ≡ fused_steps t terms.entry }
{
    let mut found = terms[N - 1];
    for &term in terms[..N - 1].iter().rev() {
        found = mul_add(found, t, term);
    }
    found
}

// F2, R26: order 3, by fused steps. They are taken of each derivative in turn: a step waits for the one before it, and
// those of the others do not. (One derivative after the other was a seventh slower, and a loop over the coefficients, for this order
// and for 5, a fiftieth.)
pub fn cubic(level: Level, a: &[f64], t: f64) -> Derivatives
    requires { length a.now ≡ 4 }
    ensures { result ≡ asked (level_number level) (fused_derivative 3 a.now t) }
{
    let a0 = a[0];
    let a1 = a[1];
    let a2 = a[2];
    let a3 = a[3];
    if let Level::Positions = level {
        return Derivatives::position(fused_steps(t, [a0, a1, a2, a3]));
    }
    let two = 2.0 * a2;
    let six = 6.0 * a3;
    let q2 = mul_add(a3, t, a2);
    let dq2 = mul_add(3.0 * a3, t, two);
    let ddq = mul_add(six, t, two);
    let q1 = mul_add(q2, t, a1);
    let dq = mul_add(dq2, t, a1);
    let q = mul_add(q1, t, a0);
    let all = Derivatives {
        q,
        dq,
        ddq,
        dddq: six,
    };
    all.up_to(level)
}

// F2, R26: order 5, by fused steps, of each derivative in turn.
pub fn quintic(level: Level, a: &[f64], t: f64) -> Derivatives
    requires { length a.now ≡ 6 }
    ensures { result ≡ asked (level_number level) (fused_derivative 5 a.now t) }
{
    let a0 = a[0];
    let a1 = a[1];
    let a2 = a[2];
    let a3 = a[3];
    let a4 = a[4];
    let a5 = a[5];
    if let Level::Positions = level {
        return Derivatives::position(fused_steps(t, [a0, a1, a2, a3, a4, a5]));
    }
    let two = 2.0 * a2;
    let six = 6.0 * a3;
    let q4 = mul_add(a5, t, a4);
    let dq4 = mul_add(5.0 * a5, t, 4.0 * a4);
    let ddq4 = mul_add(20.0 * a5, t, 12.0 * a4);
    let q3 = mul_add(q4, t, a3);
    let dq3 = mul_add(dq4, t, 3.0 * a3);
    let ddq3 = mul_add(ddq4, t, six);
    let q2 = mul_add(q3, t, a2);
    let dq2 = mul_add(dq3, t, two);
    let ddq = mul_add(ddq3, t, two);
    let q1 = mul_add(q2, t, a1);
    let dq = mul_add(dq2, t, a1);
    let q = mul_add(q1, t, a0);
    let dddq = if level.writes(3) {
        fused_steps(t, [six, 24.0 * a4, 60.0 * a5])
    } else {
        0.0
    };
    let all = Derivatives { q, dq, ddq, dddq };
    all.up_to(level)
}
