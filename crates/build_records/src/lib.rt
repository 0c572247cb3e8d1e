// The record that a build answers with, of a path that was built.
#![tactic(auto)]

ghost use Rattle.std.specs.Prelude.{◌≡◌, ◌≤◌};
ghost use Rattle.rules.specs.Build.{given_by, accepted_record};

use rules::{PathRecord, SplineConfig, SplineInput};

// B13: "the record: order, segments, axes, s_min, s_max, inv_ds and the mode".
#[tactic(auto, unfolding(rules::specs::Build::accepted_record))]
pub fn accepted(input: SplineInput) -> PathRecord
    requires { (1 ≤ input.points) × (input.points ≤ 257) }
    ensures { result ≡ accepted_record (given_by input.entry) }
{
    let SplineConfig {
        order,
        s_min,
        s_max,
        out_of_range_mode,
        ..
    } = input.config;
    let segments = input.points - 1;
    PathRecord {
        order,
        segments,
        axes: input.axes,
        s_min,
        s_max,
        inv_ds: questions::inv_ds(segments, s_min, s_max),
        mode: out_of_range_mode,
    }
}
