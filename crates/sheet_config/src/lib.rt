// What a build is told of a job sheet that was read (crates/sheet_record): the heading becomes a configuration.
#![tactic(auto)]

ghost use Rattle.std.specs.Prelude.{◌≡◌, false, ◌-◌, ◌^◌, ◌≤◌};
ghost use Rattle.rules.specs.Build.{table_length, given};
ghost use Rattle.rules.specs.SheetAnswers.{order_of};
ghost use Rattle.sheet_record.specs.Held.{Near};
ghost use Rattle.sheet_record.specs.Reached.{Small};
ghost use Rattle.sheet_config.specs.Config.{config_read};

use rules::{BoundaryState, OutOfRangeMode, PathParam, SplineConfig};
use sheet_record::SheetNumbers;

// An order is a whole number like any other, and a negative one is no order.
fn order_of(order: i64) -> usize
    requires { Near order }
    ensures value { result ≡ order_of order }
    ensures near { result ≤ 2 ^ 40 }
{
    usize::try_from(order).unwrap_or(0)
}

// J9: a state of so many numbers of each axis, unmarked.
fn unmarked(axes: usize, numbers: usize) -> Option<BoundaryState>
    ensures { result ≡ given axes numbers false }
{
    Some(BoundaryState {
        rows: axes,
        columns: numbers,
        per_unit_of_s: false,
    })
}

// J9: what the build is told: mode Error, and unmarked states.
pub fn config_of(n: SheetNumbers) -> SplineConfig
    requires { Small n }
    ensures { result ≡ config_read n }
{
    SplineConfig {
        order: order_of(n.order),
        s_min: PathParam(n.from as f64),
        s_max: PathParam(n.to as f64),
        out_of_range_mode: OutOfRangeMode::Error,
        start_state: unmarked(n.axes, n.start),
        end_state: unmarked(n.axes, n.end),
    }
}

// How many coefficients the build has. Orders that are refused have them too.
pub fn cells_of(n: SheetNumbers) -> usize
    requires { Small n }
    ensures { result ≡ table_length n.axes (n.points - 1) (order_of n.order) }
{
    n.axes * (n.points - 1) * (order_of(n.order) + 1)
}
