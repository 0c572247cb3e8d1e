// What C and Rust call to build a curve. It is thin and takes any operands; what its records stand for is in
// crates/tezvorup_records.
#![tactic(auto)]

ghost use Rattle.std.specs.Prelude.{◌≡◌, length};
ghost use Rattle.rules.specs.Build.{input_of, build_answer, buffer_after};
ghost use Rattle.tezvorup_records.specs.Meaning.{config_of, answer_of};

use rules::{SplineConfig, SplineInput};
use tezvorup_records::{RawAnswer, RawConfig};

// A1: the build (document 01, modules 2 to 5). The coefficients are written where the number answered is 0. (The parameters stay loose, as
// the header has them for C, and are put into an input here and in crates/tezvorup_preview: a function for both would take them all again.)
#[unsafe(no_mangle)]
pub extern "C" fn spline_build(
    config: RawConfig,
    points: usize,
    axes: usize,
    waypoints: &[f64],
    start: &[f64],
    end: &[f64],
    coefficients: &mut [f64],
) -> RawAnswer
    ensures { let b = input_of (config_of config) points axes waypoints.now start.now end.now in
        (result ≡ answer_of (build_answer b (length coefficients.old)))
        × (coefficients.new ≡ buffer_after b coefficients.old) }
{
    let config = SplineConfig::from(config);
    let input = SplineInput {
        config,
        points,
        axes,
        waypoints,
        start,
        end,
    };
    RawAnswer::from(build::from_waypoints_view(input, coefficients))
}
