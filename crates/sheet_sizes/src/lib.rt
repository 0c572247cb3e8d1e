// What is counted on the axes of a job sheet, and which refusal for a size comes first: 2 or 3. A byte that cannot be comes before
// them wherever it stands, so they are noted here, and told when the whole text was read.
#![tactic(auto)]

ghost use Rattle.std.specs.Prelude.{◌≡◌};
ghost use Rattle.sheet_sizes.specs.Sizes.{too_many, unlike, first_fault, together, axes_with, counted, earliest, with_axis};

use rules::{PathError, SheetError};
use sheet_reading::Count;

// What was counted on an axis: each of its lists, and the bracket that closes its points.
#[derive(Clone, Copy)]
pub struct AxisSizes {
    pub points: Count,
    pub close: usize,
    pub start: Count,
    pub end: Count,
}

// What was counted on some axes: axis one's points, how many numbers each start list and each end list has, and the first refusal for a
// size. (0 stays the number where lists differ: by J26 it is what the build is told then, and asks about.)
#[derive(Clone, Copy)]
pub struct AxesSizes {
    pub points: usize,
    pub start: usize,
    pub end: usize,
    pub fault: Option<SheetError>,
}

// The same of any number of axes, none too. (The refusal stays a number, 0 where there is none, with its place: a caller may keep one that
// no `PathError` has.)
#[derive(Clone, Copy)]
pub struct SizesSofar {
    pub points: usize,
    pub start: usize,
    pub end: usize,
    pub number: u32,
    pub at: usize,
}

// J23: "the 258th point". A buffer has room for so many of each axis, and is full where there are too many.
pub const TOO_MANY_POINTS: usize = 258;

// J23: a state's 4th number. The same. (It stays apart from the 4 of crates/sheet_items, which is how deep forms may stand.)
pub const TOO_MANY_NUMBERS: usize = 4;

// J23: 2 for a list of so many numbers.
fn too_many(many: usize, list: Count) -> Option<SheetError>
    ensures { result ≡ too_many many list }
{
    if list.numbers < many {
        return None;
    }
    Some(SheetError {
        cause: PathError::InvalidLength,
        at: list.over,
    })
}

// J24: 3 for another count of points than axis one's.
fn unlike(z: AxisSizes, count: usize) -> Option<SheetError>
    ensures { result ≡ unlike z count }
{
    if z.points.numbers == count {
        return None;
    }
    Some(SheetError {
        cause: PathError::InvalidShape,
        at: z.close,
    })
}

// J23, J24: the first of them in the order of the text.
fn first_fault(z: AxisSizes, count: usize) -> Option<SheetError>
    ensures { result ≡ first_fault z count }
{
    too_many(TOO_MANY_POINTS, z.points)
        .or(unlike(z, count))
        .or(too_many(TOO_MANY_NUMBERS, z.start))
        .or(too_many(TOO_MANY_NUMBERS, z.end))
}

// J26: the count of all lists so far, or 0.
fn together(sofar: usize, n: usize) -> usize
    ensures { result ≡ together sofar n }
{
    if sofar == n { n } else { 0 }
}

// One axis more. J23, J24: the earliest refusal stays.
pub fn axes_with(sofar: Option<AxesSizes>, z: AxisSizes) -> AxesSizes
    ensures { result ≡ axes_with sofar z }
{
    match sofar {
        None => AxesSizes {
            points: z.points.numbers,
            start: z.start.numbers,
            end: z.end.numbers,
            fault: first_fault(z, z.points.numbers),
        },
        Some(axes) => AxesSizes {
            points: axes.points,
            start: together(axes.start, z.start.numbers),
            end: together(axes.end, z.end.numbers),
            fault: axes.fault.or(first_fault(z, axes.points)),
        },
    }
}

// What was counted on k axes, if there were any, but no refusal: one may be there before the first axis, and is `earliest`'s.
fn counted(k: usize, sofar: SizesSofar) -> Option<AxesSizes>
    ensures { result ≡ counted k sofar }
{
    if k == 0 {
        return None;
    }
    Some(AxesSizes {
        points: sofar.points,
        start: sofar.start,
        end: sofar.end,
        fault: None,
    })
}

// J23, J24: the earliest refusal, its number and its place. (The number stays one, as it stands in `SizesSofar`.)
fn earliest(sofar: SizesSofar, fault: Option<SheetError>) -> (u32, usize)
    ensures number { result.0 ≡ (earliest sofar fault).number }
    ensures at { result.1 ≡ (earliest sofar fault).at }
{
    if sofar.number != 0 {
        return (sofar.number, sofar.at);
    }
    match fault {
        None => (0, 0),
        Some(e) => (u32::from(e.cause), e.at),
    }
}

// One axis more behind k axes, whatever was refused before. J23, J24: the earliest refusal stays.
#[tactic(auto, using(crate::proofs::Numbers::with_is))]
pub fn with_axis(k: usize, sofar: SizesSofar, z: AxisSizes) -> SizesSofar
    ensures { result ≡ with_axis k sofar z }
{
    let axes = axes_with(counted(k, sofar), z);
    let (number, at) = earliest(sofar, axes.fault);
    SizesSofar {
        points: axes.points,
        start: axes.start,
        end: axes.end,
        number,
        at,
    }
}
