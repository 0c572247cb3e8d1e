// Document 01's questions before a build. They look at the coefficient buffer's length alone, so that they can be asked
// without a buffer.
#![tactic(auto)]

ghost use Rattle.std.specs.Prelude.{◌≡◌, ◌≤◌, ◌&&◌};
ghost use Rattle.rules.specs.Floats.{finite};
ghost use Rattle.law_lists.specs.Lists.{all};
ghost use Rattle.rules.specs.Questions.{first_no, number_answered};
ghost use Rattle.rules.specs.Build.{given_by, valid_state, finite_state, build_questions};

use build_shape::shape_questions;
use rules::{BoundaryState, PathError, SplineInput};

// B6: of a state, with the numbers beside it. They stay two parameters: a build's input has them apart, as C does, and it is the build that
// puts both into one struct, `EndState` of crates/build_plan, after they have passed these questions.
// (m stays a parameter: it comes from the order, and the numbers are axes * m only where this says yes.)
#[tactic(auto, unfolding(rules::specs::Build::valid_state))]
fn valid_state(axes: usize, m: usize, state: Option<BoundaryState>, numbers: &[f64]) -> bool
    requires { (axes ≤ 8) × (m ≤ 3) }
    ensures { result ≡ valid_state axes m state numbers.now }
{
    let Some(state) = state else {
        return true;
    };
    state.rows == axes && state.columns == m && numbers.len() == axes * m
}

// B9: of four numbers. x − x is 0 where x is finite and else NaN, and a NaN stays one in every sum, so one comparison tells of all four.
fn four_finite(four: &[f64; 4]) -> bool
    ensures { result ≡ all finite four.now }
{
    let [a, b, c, d] = *four;
    (a - a) + (b - b) + ((c - c) + (d - d)) == 0.0
}

// B9: of a list, by fours.
fn all_finite(numbers: &[f64]) -> bool
    ensures { result ≡ all finite numbers.now }
{
    let (fours, rest) = numbers.as_chunks::<4>();
    fours.iter().all(|four| four_finite(four)) && rest.iter().all(|number| number.is_finite())
}

// B9: of a state, with the numbers beside it.
#[tactic(auto, unfolding(rules::specs::Build::finite_state))]
fn finite_state(state: Option<BoundaryState>, numbers: &[f64]) -> bool
    ensures { result ≡ finite_state state numbers.now }
{
    state.is_none() || all_finite(numbers)
}

// B9: of all that a build is given.
fn all_numbers_finite(input: SplineInput) -> bool
    ensures { let b = given_by input.entry in
        result ≡ (all finite b.waypoints && finite_state b.config.start_state b.start && finite_state b.config.end_state b.end) }
{
    let config = input.config;
    all_finite(input.waypoints)
        && finite_state(config.start_state, input.start)
        && finite_state(config.end_state, input.end)
}

// G4: the first no is the refusal.
#[tactic(auto, using(crate::proofs::Behind::by_counts), unfolding(rules::specs::Questions::first_no))]
pub fn build_questions(input: SplineInput, cells: usize) -> Result<(), PathError>
    ensures { number_answered result ≡ first_no (build_questions (given_by input.entry) cells) }
{
    let config = input.config;
    let axes = input.axes;
    shape_questions(config.order, input.points, axes, input.waypoints.len())?; // B1, B2, B3, B4, B5
    let m = (config.order - 1) / 2;
    if !valid_state(axes, m, config.start_state, input.start) {
        return Err(PathError::DimensionMismatch); // B6: of the start
    }
    if !valid_state(axes, m, config.end_state, input.end) {
        return Err(PathError::DimensionMismatch); // B6: of the end
    }
    let segments = input.points - 1;
    let wanted = axes * segments * (config.order + 1);
    if cells != wanted {
        return Err(PathError::InvalidLength); // B7
    }
    if !questions::valid_range(segments, config.s_min, config.s_max) {
        return Err(PathError::InvalidRange); // B8
    }
    if !all_numbers_finite(input) {
        return Err(PathError::InvalidArgument); // B9
    }
    Ok(())
}
