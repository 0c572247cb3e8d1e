// One segment of a master: the range of its numbers, and then its equations. It is not open to callers of the library: it is lent
// what the check (crates/master) has found to be in order.
#![tactic(auto)]

ghost use Rattle.std.specs.Prelude.{◌≡◌, ◌-◌, ◌<◌, length};
ghost use Rattle.rules.specs.Master.{master_says};
ghost use Rattle.master_equations.specs.Segment.{Shaped};
ghost use Rattle.master_segments.specs.Answer.{segment_says};

use master_equations::MasterSegments;
use master_numbers::range::all_within;
use rules::PathError;

// The range of segment i's numbers, and then its equations. Where all before is not good, they are not worked out. (That all before is
// good stays beside the place: both are others at each call.)
#[tactic(auto, using(crate::proofs::SegmentSays::by_parts))]
pub fn check_segment_of<const M: usize>(
    before: bool,
    segments: MasterSegments<M>,
    i: usize,
) -> Result<bool, PathError>
    requires { i < length segments.waypoints.now - 1 }
    ensures { master_says result ≡ segment_says before M segments.entry.waypoints.now segments.entry.end.now segments.entry.table.now i }
{
    let cells = 2 * M + 2;
    let from = i * cells;
    if !all_within(&segments.table[from..from + cells]) {
        return Err(PathError::InvalidArgument); // M7
    }
    if !before {
        return Ok(false);
    }
    let holds = segments.equations_hold(i);
    Ok(holds) // M8: no is not a refusal
}

// The same where m is known only when the program runs. (The match stays, since no number becomes a const parameter, and so do the
// parameters: a caller's lists need no `MasterSegments`.)
pub fn check_segment(
    before: bool,
    m: usize,
    waypoints: &[i64],
    end: &[i64],
    table: &[i64],
    i: usize,
) -> Result<bool, PathError>
    requires { Shaped m waypoints.now end.now table.now × (i < length waypoints.now - 1) }
    ensures { master_says result ≡ segment_says before m waypoints.now end.now table.now i }
{
    match m {
        1 => {
            let segments = MasterSegments::<1> {
                waypoints,
                end,
                table,
            };
            check_segment_of(before, segments, i)
        }
        2 => {
            let segments = MasterSegments::<2> {
                waypoints,
                end,
                table,
            };
            check_segment_of(before, segments, i) // order 5
        }
        _ => {
            let segments = MasterSegments::<3> {
                waypoints,
                end,
                table,
            };
            check_segment_of(before, segments, i)
        }
    }
}
