// What an evaluation answers: a position, and the derivatives that a level asks for; those that it does not ask for are 0. And one
// turn of the loop that evaluates a segment of order 7.
#![tactic(auto)]

ghost use Rattle.std.specs.Prelude.{◌≡◌, List, ◌∷◌, Float};
ghost use Rattle.rules.specs.Floats.{+0};
ghost use Rattle.rules.specs.Query.{general_loop, loop_derivative};
ghost use Rattle.query_levels.specs.Levels.{level_number};
ghost use Rattle.query_loop.specs.Level.{asked, derivative_of};

use query_levels::Level;

// The position, and the first, second and third derivative.
#[derive(Clone, Copy, Default)]
pub struct Derivatives {
    pub q: f64,
    pub dq: f64,
    pub ddq: f64,
    pub dddq: f64,
}

impl Derivatives {
    // The position alone.
    pub fn position(q: f64) -> Derivatives
        ensures { result ≡ record { q = q; dq = +0; ddq = +0; dddq = +0 } }
    {
        Derivatives {
            q,
            ..Derivatives::default()
        }
    }

    // Those that the level asks for.
    pub fn up_to(self, level: Level) -> Derivatives
        ensures { result ≡ asked (level_number level) (derivative_of self) }
    {
        match level {
            Level::Positions => Derivatives::position(self.q),
            Level::UpToSecond => Derivatives { dddq: 0.0, ..self },
            Level::UpToThird => self,
        }
    }

    // R27: a step of the general loop, product and sum rounded apart: one coefficient more. The compiler leaves out what the level
    // does not ask for.
    pub fn step(self, level: Level, t: f64, a: f64) -> Derivatives
        ensures { (y : Float) (rest : List Float)
            → self ≡ asked (level_number level) (loop_derivative (general_loop t (y ∷ rest)))
            → result ≡ asked (level_number level) (loop_derivative (general_loop t (a ∷ (y ∷ rest)))) }
    {
        let next = Derivatives {
            q: self.q * t + a,
            dq: self.dq * t + self.q,
            ddq: self.ddq * t + 2.0 * self.dq,
            dddq: self.dddq * t + 3.0 * self.ddq,
        };
        next.up_to(level)
    }
}
