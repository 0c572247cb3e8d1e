// The records that cross the boundary to C, and what they are made from and into. Each has the fields that include/tezvorup.h has, so kinds,
// modes and answers stay numbers in them. What they stand for is in specs/; what holds of them, with the numbers that each export can
// answer, in crates/theorem_records.
#![tactic(auto)]

ghost use Rattle.std.specs.Prelude.{◌≡◌};
ghost use Rattle.rules.specs.Build.{build_answered, refused_record};
ghost use Rattle.rules.specs.Master.{master_says};
ghost use Rattle.rules.specs.SheetAnswers.{place_answered, sheet_answered};
ghost use Rattle.tezvorup_records.specs.Meaning.{mode_of, record_of, record_beside};

use rules::{
    BoundaryState, OutOfRangeMode, PathError, PathParam, PathRecord, SheetError, SplineConfig,
    number_answered,
};

// `spline_state`: a boundary state by its kind; its numbers are a list beside it.
#[repr(C)]
#[derive(Clone, Copy)]
pub struct RawState {
    pub kind: u8,
    pub rows: usize,
    pub columns: usize,
}

// `spline_config`.
#[repr(C)]
#[derive(Clone, Copy)]
pub struct RawConfig {
    pub order: usize,
    pub s_min: f64,
    pub s_max: f64,
    pub mode: u8,
    pub start: RawState,
    pub end: RawState,
}

// `spline_path`: a path's record.
#[repr(C)]
#[derive(Clone, Copy)]
pub struct RawPath {
    pub order: usize,
    pub segments: usize,
    pub axes: usize,
    pub s_min: f64,
    pub s_max: f64,
    pub inv_ds: f64,
    pub mode: u8,
}

// `spline_answer`: what a build answers.
#[repr(C)]
#[derive(Clone, Copy)]
pub struct RawAnswer {
    pub number: u32,
    pub path: RawPath,
}

// `spline_check`: what a master check answers. A number of 0 alone is no yes.
#[repr(C)]
#[derive(Clone, Copy)]
pub struct RawCheck {
    pub number: u32,
    pub good: u8,
}

// `spline_place`: what reading a job sheet answers.
#[repr(C)]
#[derive(Clone, Copy)]
pub struct RawPlace {
    pub number: u32,
    pub at: usize,
}

// `spline_sheet`: what building the curve of a job sheet answers.
#[repr(C)]
#[derive(Clone, Copy)]
pub struct RawSheet {
    pub number: u32,
    pub at: usize,
    pub path: RawPath,
}

// A1: the number of mode Clamp.
const CLAMP: u8 = OutOfRangeMode::Clamp as u8;

// What a query does outside the range, by its number. (It stays a function: neither type is this crate's, so a `From` would have to stand
// in crates/rules, and would make any number a mode there, too.)
pub fn mode_of(mode: u8) -> OutOfRangeMode
    ensures { result ≡ mode_of mode }
{
    if mode == CLAMP {
        return OutOfRangeMode::Clamp;
    }
    OutOfRangeMode::Error
}

// B6, B12: a boundary state by its kind. A kind that is reserved is a state of more rows than there can be axes.
impl From<RawState> for Option<BoundaryState> {
    ghost use Rattle.tezvorup_records.specs.Meaning.{state_of};

    ghost from_gives = { λ raw state. state ≡ state_of raw };

    fn from(raw: RawState) -> Option<BoundaryState> {
        let columns = raw.columns;
        match raw.kind {
            0 => None,
            1 => Some(BoundaryState {
                rows: raw.rows,
                columns,
                per_unit_of_s: false,
            }),
            2 => Some(BoundaryState {
                rows: raw.rows,
                columns,
                per_unit_of_s: true,
            }),
            _ => Some(BoundaryState {
                rows: usize::MAX,
                columns,
                per_unit_of_s: false,
            }),
        }
    }
}

// What a build is told.
impl From<RawConfig> for SplineConfig {
    ghost use Rattle.tezvorup_records.specs.Meaning.{config_of};

    ghost from_gives = { λ raw config. config ≡ config_of raw };

    fn from(config: RawConfig) -> SplineConfig {
        SplineConfig {
            order: config.order,
            s_min: PathParam(config.s_min),
            s_max: PathParam(config.s_max),
            out_of_range_mode: mode_of(config.mode),
            start_state: Option::from(config.start),
            end_state: Option::from(config.end),
        }
    }
}

// The path that a query is asked of.
impl From<RawPath> for PathRecord {
    ghost use Rattle.tezvorup_records.specs.Meaning.{path_of};

    ghost from_gives = { λ raw path. path ≡ path_of raw };

    fn from(path: RawPath) -> PathRecord {
        PathRecord {
            order: path.order,
            segments: path.segments,
            axes: path.axes,
            s_min: PathParam(path.s_min),
            s_max: PathParam(path.s_max),
            inv_ds: path.inv_ds,
            mode: mode_of(path.mode),
        }
    }
}

// B13: the record of a path that was built.
impl From<PathRecord> for RawPath {
    ghost from_gives = { λ path raw. raw ≡ record_of path };

    fn from(built: PathRecord) -> RawPath {
        RawPath {
            order: built.order,
            segments: built.segments,
            axes: built.axes,
            s_min: built.s_min.0,
            s_max: built.s_max.0,
            inv_ds: built.inv_ds,
            mode: built.mode as u8,
        }
    }
}

// B15: "the all-zero record with mode Error".
fn no_path() -> RawPath
    ensures { result ≡ record_of refused_record }
{
    RawPath {
        order: 0,
        segments: 0,
        axes: 0,
        s_min: 0.0,
        s_max: 0.0,
        inv_ds: 0.0,
        mode: OutOfRangeMode::Error as u8,
    }
}

// B13, B15: the record beside an answer's number: that of a path that was built, or of a refusal.
fn record_beside<E: Copy>(answer: Result<PathRecord, E>) -> RawPath
    ensures { result ≡ record_beside answer }
{
    match answer {
        Ok(path) => RawPath::from(path),
        Err(_) => no_path(),
    }
}

// B13, B15, V2: a build's answer, and a preview's.
impl From<Result<PathRecord, PathError>> for RawAnswer {
    ghost use Rattle.tezvorup_records.specs.Meaning.{answer_of};

    ghost from_gives = { λ answer raw. raw ≡ answer_of (build_answered answer) };

    fn from(answer: Result<PathRecord, PathError>) -> RawAnswer {
        RawAnswer {
            number: number_answered(answer),
            path: record_beside(answer),
        }
    }
}

// M8: a check's answer: good is 1 where it is yes, and a refusal has its number.
impl From<Result<bool, PathError>> for RawCheck {
    ghost use Rattle.tezvorup_records.specs.Meaning.{check_of};

    ghost from_gives = { λ answer raw. raw ≡ check_of (master_says answer) };

    fn from(answer: Result<bool, PathError>) -> RawCheck {
        match answer {
            Ok(true) => RawCheck { number: 0, good: 1 },
            Ok(false) => RawCheck { number: 0, good: 0 },
            Err(error) => RawCheck {
                number: u32::from(error),
                good: 0,
            },
        }
    }
}

impl RawPlace {
    ghost use Rattle.tezvorup_records.specs.Meaning.{place_of};

    // J12: a sheet's number and place, where 0 has the sheet's length.
    pub fn of<T: Copy>(text: &[u8], answer: Result<T, SheetError>) -> RawPlace
        ensures { result ≡ place_of (place_answered text.now answer) }
    {
        match answer {
            Ok(_) => RawPlace {
                number: 0,
                at: text.len(),
            },
            Err(error) => RawPlace {
                number: u32::from(error.cause),
                at: error.at,
            },
        }
    }
}

impl RawSheet {
    ghost use Rattle.tezvorup_records.specs.Meaning.{sheet_answer_of};

    // J12, J13: the same, with the record of the path that was built.
    pub fn of(text: &[u8], answer: Result<PathRecord, SheetError>) -> RawSheet
        ensures { result ≡ sheet_answer_of (sheet_answered text.now answer) }
    {
        let place = RawPlace::of(text, answer);
        RawSheet {
            number: place.number,
            at: place.at,
            path: record_beside(answer),
        }
    }
}
