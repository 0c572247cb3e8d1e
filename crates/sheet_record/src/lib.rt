// What was read of a job sheet, as the reader hands it to the build: numbers, and lists in buffers that are lent. What they say of a sheet
// stands in specs/. This crate has no code.
#![tactic(auto)]

ghost use Rattle.sheet_record.specs.Reached.{Reached};

// The numbers of the heading, how many axes and points there are, and how many numbers each start list and each end list has (0 where
// they differ).
#[derive(Clone, Copy)]
pub struct SheetNumbers {
    pub order: i64,
    pub from: i64,
    pub to: i64,
    pub axes: usize,
    pub points: usize,
    pub start: usize,
    pub end: usize,
}

// What was read of a sheet: its numbers, and its lists in the buffers of each kind, which are lent.
#[derive(Clone, Copy)]
pub struct SheetRead<'a> {
    pub numbers: SheetNumbers,
    pub points: &'a [i64],
    pub start: &'a [i64],
    pub end: &'a [i64],
    pub ghost reached: { Reached numbers points.now start.now end.now },
}
