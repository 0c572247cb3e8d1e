// What C and Rust call to ask before a build. It is thin and takes any operands; what its records stand for is in
// crates/tezvorup_records.
#![tactic(auto)]

ghost use Rattle.std.specs.Prelude.{◌≡◌};
ghost use Rattle.rules.specs.Build.{input_of, build_answer};
ghost use Rattle.tezvorup_records.specs.Meaning.{config_of, answer_of};

use rules::{SplineConfig, SplineInput};
use tezvorup_records::{RawAnswer, RawConfig};

// A1, V1, V2, V7: the preview. The coefficients are a count alone. (The parameters stay loose, as crates/tezvorup_build says.)
#[unsafe(no_mangle)]
pub extern "C" fn spline_preview(
    config: RawConfig,
    points: usize,
    axes: usize,
    waypoints: &[f64],
    start: &[f64],
    end: &[f64],
    coefficient_count: usize,
) -> RawAnswer
    ensures { let b = input_of (config_of config) points axes waypoints.now start.now end.now in
        result ≡ answer_of (build_answer b coefficient_count) }
{
    let config = SplineConfig::from(config);
    let input = SplineInput {
        config,
        points,
        axes,
        waypoints,
        start,
        end,
    };
    RawAnswer::from(build_preview::preview(input, coefficient_count))
}
