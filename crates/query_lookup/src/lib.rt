// The lookup: the segment that s falls in, and how far into it. (Path and s stay two parameters: a struct of them would be made for one
// lookup.)
#![tactic(auto)]

ghost use Rattle.std.specs.Prelude.{◌≡◌, ◌≤◌, false, is_nan};
ghost use Rattle.std.specs.Float.{◌≤ᶠ◌};
ghost use Rattle.rules.specs.Floats.{of_count};
ghost use Rattle.rules.specs.Query as Query;
ghost use Rattle.rules.specs.Query.{in_range, lookup, lookup_says};
ghost use Rattle.query_lookup.specs.Path.{Findable};

use rules::{OutOfRange, OutOfRangeMode, PathParam, PathRecord, SegmentTau, SegmentUnits};

// Q10: the last question. A range has no NaN in it.
#[tactic(auto, using(law_rounding::proofs::NotNan::number_test), unfolding(rules::specs::Query::in_range))]
fn in_range(path: PathRecord, s: PathParam) -> bool
    ensures { result ≡ in_range path.mode path.s_min path.s_max s }
{
    match path.mode {
        OutOfRangeMode::Error => (path.s_min.0..=path.s_max.0).contains(&s.0),
        OutOfRangeMode::Clamp => !s.0.is_nan(),
    }
}

// R21: in Clamp, the nearest end in the place of an s outside the range, infinities included.
#[tactic(auto, unfolding(rules::specs::Query::clamped))]
fn clamped(path: PathRecord, s: PathParam) -> PathParam
    requires { path.s_min.0 ≤ᶠ path.s_max.0 }
    ensures { result ≡ Query.clamped path.mode path.s_min path.s_max s }
{
    match path.mode {
        OutOfRangeMode::Error => s,
        OutOfRangeMode::Clamp => PathParam(s.0.clamp(path.s_min.0, path.s_max.0)),
    }
}

// A count as a float. The processor has an instruction for signed numbers alone.
fn count_as_float(n: u64) -> f64
    requires { n ≤ 256 }
    ensures { result ≡ of_count n }
{
    n as i64 as f64
}

// R23, R24, R25: the segment, and tau. The subtraction loses nothing: the rest has no more digits than x.
fn located(path: PathRecord, x: SegmentUnits) -> SegmentTau
    requires { Findable path × (is_nan x.0 ≡ false) }
    ensures { result ≡ Query.located path.segments x }
{
    if x.0 <= 0.0 {
        return SegmentTau {
            segment: 0,
            tau: SegmentUnits(0.0),
        };
    }
    let at_end = path.segments as f64 <= x.0;
    if at_end {
        return SegmentTau {
            segment: path.segments - 1,
            tau: SegmentUnits(1.0),
        };
    }
    let whole = std::num::truncating_f64_to_u64(x.0);
    SegmentTau {
        segment: whole as usize,
        tau: SegmentUnits(x.0 - count_as_float(whole)),
    }
}

// Q11, R22: the lookup of s. In a range that its question lets pass, scaled is never NaN.
#[tactic(auto, using(crate::proofs::Answer::by_lookup))]
pub fn segment_tau(path: PathRecord, s: PathParam) -> Result<SegmentTau, OutOfRange>
    requires { Findable path }
    ensures { lookup_says result ≡ lookup_says (lookup path s) }
{
    if !in_range(path, s) {
        return Err(OutOfRange(s));
    }
    let s = clamped(path, s);
    let scaled = SegmentUnits((s.0 - path.s_min.0) * path.inv_ds);
    Ok(located(path, scaled))
}
