// Document 01's questions before a build that are asked of counts alone, 1 to 5.
#![tactic(auto)]

ghost use Rattle.std.specs.Prelude.{◌≡◌};
ghost use Rattle.rules.specs.Questions.{first_no, number_answered};
ghost use Rattle.build_shape.specs.Shape.{shape_questions};

use questions::{size_questions, valid_axes};
use rules::PathError;

// The first no of the five is the refusal, of a waypoint list of so many numbers. (The counts stay apart: of a build's input
// these questions look at nothing else, and a struct of the four would be made for this call alone.)
#[tactic(auto, using(crate::proofs::Shaped::by_size), unfolding(rules::specs::Questions::first_no))]
pub fn shape_questions(
    order: usize,
    points: usize,
    axes: usize,
    numbers: usize,
) -> Result<(), PathError>
    ensures { number_answered result ≡ first_no (shape_questions order points axes numbers) }
{
    size_questions(order, points)?; // B1, B2, B3
    if !valid_axes(axes) {
        return Err(PathError::InvalidDimension); // B4
    }
    if numbers != axes * points {
        return Err(PathError::InvalidShape); // B5
    }
    Ok(())
}
