// Wish 3 as a promise of code: a preview and the build behind it, both called, so that the theorem on the two
// (crates/theorem_builds/specs/Previews.antt) is held to the contracts that they have.
#![tactic(auto)]

ghost use Rattle.std.specs.Prelude.{◌≡◌, length};
ghost use Rattle.rules.specs.Build.{given_by, build_answered};
ghost use Rattle.theorem_builds.specs.Previews.{Previewed, Built};

use build::from_waypoints_view;
use build_preview::preview;
use rules::{PathError, PathRecord, SplineInput};

// What a preview told, and what the build then answered.
#[derive(Clone, Copy)]
pub struct PreviewedBuild {
    pub told: Result<PathRecord, PathError>,
    pub answer: Result<PathRecord, PathError>,
}

// A1, V2, V4, V5, V6: both, with the same input; the preview is told the buffer's length. Each promises what it promises alone, and
// the two answers are the same.
pub fn preview_then_build(input: SplineInput, coeffs: &mut [f64]) -> PreviewedBuild
    ensures fact { let b = given_by input.entry in
        Previewed b (length coeffs.old) (build_answered result.told)
        × Built b coeffs.old (build_answered result.answer) coeffs.new }
    ensures told_value { result.told ≡ result.answer }
{
    let told = preview(input, coeffs.len());
    let answer = from_waypoints_view(input, coeffs);
    PreviewedBuild { told, answer }
}
