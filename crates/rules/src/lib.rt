// The types that travel between calls. What they mean, and what every function of the library is
// held to, stands in specs/: document 01 as definitions, a file a subject. Of code there is the number of a refusal alone.
#![tactic(auto)]

ghost use Rattle.std.specs.Prelude.{◌≡◌};
ghost use Rattle.rules.specs.Questions.{number_answered};

// F1: a position along s: the source's path parameter.
#[derive(Clone, Copy)]
pub struct PathParam(pub f64);

// F1: a position counted in segments: the source's normalised segment units. A segment's tau is one.
#[derive(Clone, Copy)]
pub struct SegmentUnits(pub f64);

// What a query does with an s outside the range: refuse it, or set it to the nearest end.
#[derive(Clone, Copy)]
pub enum OutOfRangeMode {
    Error,
    Clamp,
}

// B12: a boundary state that is given: so many rows (axes) and columns (numbers of a node). A state that is none is all zero.
// The numbers are a slice beside it, column-major, and nobody looks at it where the state is none. (The mark stays a bool, whose name says
// what yes means: an enum of two would make the one `if` that asks it a `match`, and give the rule that divides by inv_ds two cases.)
#[derive(Clone, Copy)]
pub struct BoundaryState {
    pub rows: usize,
    pub columns: usize,
    pub per_unit_of_s: bool,
}

// What a build is told beside the points and the states' numbers.
#[derive(Clone, Copy)]
pub struct SplineConfig {
    pub order: usize,
    pub s_min: PathParam,
    pub s_max: PathParam,
    pub out_of_range_mode: OutOfRangeMode,
    pub start_state: Option<BoundaryState>,
    pub end_state: Option<BoundaryState>,
}

// What a build is given, the coefficient buffer aside: the waypoints, column-major, and the numbers of both states. (The count of points
// stays beside the lists, since question B5 compares it with the waypoints' length, and a caller may give any two.)
#[derive(Clone, Copy)]
pub struct SplineInput<'a> {
    pub config: SplineConfig,
    pub points: usize,
    pub axes: usize,
    pub waypoints: &'a [f64],
    pub start: &'a [f64],
    pub end: &'a [f64],
}

// F6, B13: what a path is beside its coefficients. It is handed over by value, its three floats with it.
#[derive(Clone, Copy)]
pub struct PathRecord {
    pub order: usize,
    pub segments: usize,
    pub axes: usize,
    pub s_min: PathParam,
    pub s_max: PathParam,
    pub inv_ds: f64,
    pub mode: OutOfRangeMode,
}

// G4, F8: why a call is refused, with its number. From 300 to 308 the names are those of the source's `PathError`, below those of its
// status codes.
#[derive(Clone, Copy, PartialEq, Eq)]
pub enum PathError {
    InvalidLength = 2,
    InvalidShape = 3,
    InvalidArgument = 4,
    InvalidDimension = 300,
    InvalidRange = 301,
    InvalidOrder = 302,
    DimensionMismatch = 303,
    NotEnoughWaypoints = 304,
    OutOfRangeS = 305,
    UnsupportedDerivativeOrder = 308,
    InvalidSheet = 600,
    SheetTooDeep = 601,
}

impl From<PathError> for u32 {
    ghost use Rattle.rules.specs.Questions.{number_of};

    ghost from_gives = { λ error number. number ≡ number_of error };

    // (The number stays a u32, since C is answered with it.)
    fn from(error: PathError) -> u32 {
        error as u32
    }
}

// F11: the number that an answer stands for: 0 where the call is served, else the refusal's. (It stays a u32, as C gets it.)
pub fn number_answered<T: Copy>(answer: Result<T, PathError>) -> u32
    ensures { result ≡ number_answered answer }
{
    match answer {
        Ok(_) => 0,
        Err(error) => u32::from(error),
    }
}

// F3: a segment, and how far into it.
#[derive(Clone, Copy)]
pub struct SegmentTau {
    pub segment: usize,
    pub tau: SegmentUnits,
}

// F8, Q11: the s that a lookup refused.
#[derive(Clone, Copy)]
pub struct OutOfRange(pub PathParam);

impl From<OutOfRange> for PathError {
    ghost use Rattle.rules.specs.declared.PathError.TheVariants.{OutOfRangeS};

    ghost from_gives = { λ _ error. error ≡ OutOfRangeS };

    fn from(_s: OutOfRange) -> PathError {
        PathError::OutOfRangeS
    }
}

// J12: why a sheet is refused, and the byte place.
#[derive(Clone, Copy)]
pub struct SheetError {
    pub cause: PathError,
    pub at: usize,
}

// N2: what is kept of a number on a sheet that is read in pieces: the place where it began and the next one, the size of its digits,
// how far it is and whether a minus was read. All stay numbers, since the record crosses to C and back as it is: so a caller can hand over
// one that no reading makes, and what becomes of it is in specs/SheetNumbers.antt.
#[repr(C)]
#[derive(Clone, Copy, PartialEq, Eq)]
pub struct NumberReading {
    pub start: usize,
    pub next: usize,
    pub size: u64,
    pub stage: u8,
    pub minus: u8,
}

// N1: 0, the place after a number that was read, and its worth; or a refusal's number and place, and a worth of 0. (The number stays
// beside the others: what a reading says, `finished` of the definitions, is this record itself, and it crosses to C as it is.)
#[repr(C)]
#[derive(Clone, Copy)]
pub struct NumberAnswer {
    pub number: u32,
    pub at: usize,
    pub value: i64,
}
