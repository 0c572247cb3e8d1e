// What the questions before a build, before a query and before a check share: the order and the number of points, how many axes,
// and the range with its quotient.
#![tactic(auto)]

ghost use Rattle.std.specs.Prelude.{◌≡◌, ◌≤◌};
ghost use Rattle.rules.specs.Questions.{first_no, number_answered};
ghost use Rattle.rules.specs.Build.{valid_order, valid_axes, valid_range, inv_ds_of};
ghost use Rattle.rules.specs.Master.{size_questions};

use rules::{PathError, PathParam};

// B1, Q1, M1: is the order 3, 5 or 7?
#[tactic(auto, unfolding(rules::specs::Build::valid_order))]
pub fn valid_order(order: usize) -> bool
    ensures { result ≡ valid_order order }
{
    matches!(order, 3 | 5 | 7)
}

// B2: "Are there at least 2 points?"
const LEAST_POINTS: usize = 2;

// B3: "At most 257?"
const MOST_POINTS: usize = 257;

// What a build and a check ask first: the first no is the refusal.
#[tactic(auto, unfolding(rules::specs::Questions::first_no, rules::specs::Master::size_questions))]
pub fn size_questions(order: usize, points: usize) -> Result<(), PathError>
    ensures { number_answered result ≡ first_no (size_questions order points) }
{
    if !valid_order(order) {
        return Err(PathError::InvalidOrder); // B1, M1
    }
    if points < LEAST_POINTS {
        return Err(PathError::NotEnoughWaypoints); // B2, M2
    }
    if MOST_POINTS < points {
        return Err(PathError::InvalidLength); // B3, M3
    }
    Ok(())
}

// B4: "1 to 8 axes?" (The 8 of crates/sheet_axes stays a constant of its own: it is a rule of the job sheet's grammar, J20, which could
// change without this one.)
const MOST_AXES: usize = 8;

// B4, Q4: are there 1 to 8 axes?
#[tactic(auto, unfolding(rules::specs::Build::valid_axes))]
pub fn valid_axes(axes: usize) -> bool
    ensures { result ≡ valid_axes axes }
{
    0 < axes && axes <= MOST_AXES
}

// B8, Q6: inv_ds, how many segments come to a unit of s. The two ends stand in a config or in a path, so a struct of both would be made
// for this call and the next alone. (That there are at most 256 segments stays asked: without it the cast is not proved to lose nothing.)
#[tactic(auto, unfolding(rules::specs::Build::inv_ds_of))]
pub fn inv_ds(segments: usize, s_min: PathParam, s_max: PathParam) -> f64
    requires { segments ≤ 256 }
    ensures { result ≡ inv_ds_of segments s_min s_max }
{
    segments as f64 / (s_max.0 - s_min.0)
}

// B8, Q5: the quotient alone decides. A count divided by a NaN, an infinity, a zero or a number below
// zero is never both finite and above 0. So where the quotient is, s_max − s_min is too, and then s_min
// and s_max are finite and s_min < s_max.
pub fn valid_range(segments: usize, s_min: PathParam, s_max: PathParam) -> bool
    requires { segments ≤ 256 }
    ensures { result ≡ valid_range segments s_min s_max }
{
    let inv = inv_ds(segments, s_min, s_max);
    inv.is_finite() && 0.0 < inv
}
