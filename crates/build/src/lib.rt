// The entry point of the build: a preview (crates/build_preview), and where it refuses nothing the filling (crates/build_table).
#![tactic(auto)]

ghost use Rattle.std.specs.Prelude.{◌≡◌, length};
ghost use Rattle.rules.specs.Build.{given_by, build_answered, build_answer, buffer_after};

use build_plan::Plan;
use build_plan::states::EndState;
use build_preview::preview;
use rules::{PathError, PathRecord, SplineInput};

// A1, D1, B13, B14, B16: the build. Every call is answered: with the path's record, and the buffer holds the coefficients, by axis, then
// segment, then power; or with the first question that says no, and the buffer is as it was.
// V8: "a build is a preview and then the filling".
pub fn from_waypoints_view(input: SplineInput, coeffs: &mut [f64]) -> Result<PathRecord, PathError>
    ensures { let b = given_by input.entry in
        (build_answered result ≡ build_answer b (length coeffs.old))
        × (coeffs.new ≡ buffer_after b coeffs.old) }
{
    let path = preview(input, coeffs.len())?; // where it refuses, the buffer is as it was
    let config = input.config;
    let start = EndState {
        state: config.start_state,
        numbers: input.start,
    };
    let end = EndState {
        state: config.end_state,
        numbers: input.end,
    };
    let plan = Plan {
        m: (config.order - 1) / 2,
        n: input.points - 2,
        axes: input.axes,
        inv_ds: path.inv_ds,
        waypoints: input.waypoints,
        start,
        end,
    };
    build_table::fill(&plan, coeffs);
    Ok(path)
}
