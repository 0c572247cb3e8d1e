// The numbers that were read of a job sheet, as a build takes them: lists become columns of floats. What is read stands in
// crates/sheet_record; crates/sheet_table builds.
#![tactic(auto)]

ghost use Rattle.std.specs.Prelude.{◌≡◌, ◌++◌, ◌+◌, ◌*◌, ◌≤◌, ◌<◌, length, drop};
ghost use Rattle.law_lists.specs.Lists.{listed};
ghost use Rattle.rules.specs.Build.{given_by};
ghost use Rattle.sheet_record.specs.Reached.{InReach};
ghost use Rattle.sheet_columns.specs.Columns.{number_at, columns_at};
ghost use Rattle.sheet_columns.specs.Input.{input_read, Prepared};

use rules::SplineInput;
use sheet_record::SheetRead;

// So many lists in a buffer, each as far from the next as the stride, with so many numbers each. (Stride, rows and columns stay numbers
// beside the buffer: std's `as_chunks` would show the lists as arrays, but what was read is said of the one buffer, so each fact of it would
// have to be carried over.)
#[derive(Clone, Copy)]
struct Lists<'a> {
    buffer: &'a [i64],
    stride: usize,
    rows: usize,
    columns: usize,
    ghost reached: { InReach stride rows columns buffer.now },
}

impl Lists<'_> {
    // Column k: number k of each list.
    fn column(&self, k: usize, out: &mut [f64])
        requires { (k < self.now.columns) × (length out.old ≡ self.now.rows) }
        ensures { out.new ≡ listed self.now.rows (number_at self.now.stride self.now.buffer.now k) }
    {
        for (a, x) in out.iter_mut().enumerate() {
            *x = self.buffer[a * self.stride + k] as f64;
        }
    }

    // B11, B12: all numbers, column-major, in the first cells of a buffer.
    fn transpose(&self, out: &mut [f64])
        requires { self.now.columns * self.now.rows ≤ length out.old }
        ensures { let lists = self.now in
            out.new ≡ columns_at lists.stride lists.rows lists.columns lists.buffer.now ++ drop (lists.columns * lists.rows) out.old }
    {
        for k in 0..self.columns {
            let at = k * self.rows;
            self.column(k, &mut out[at..at + self.rows]);
        }
    }
}

// What 8 axes of 257 points have as waypoints, and with three numbers each as a state.
pub const WAYPOINTS_ROOM: usize = 2056;

pub const NUMBERS_ROOM: usize = 24;

// B11, B12: the waypoints and the states' numbers of what was read, by columns, in the first cells of arrays that are lent.
pub fn prepare(
    read: SheetRead,
    waypoints: &mut [f64; WAYPOINTS_ROOM],
    first: &mut [f64; NUMBERS_ROOM],
    last: &mut [f64; NUMBERS_ROOM],
)
    ensures { let r = read.entry in Prepared r.numbers r.points.now r.start.now r.end.now waypoints.new first.new last.new }
{
    let n = read.numbers;
    let points = Lists {
        buffer: read.points,
        stride: 258,
        rows: n.axes,
        columns: n.points,
    };
    let start = Lists {
        buffer: read.start,
        stride: 4,
        rows: n.axes,
        columns: n.start,
    };
    let end = Lists {
        buffer: read.end,
        stride: 4,
        rows: n.axes,
        columns: n.end,
    };
    points.transpose(waypoints);
    start.transpose(first);
    end.transpose(last);
}

// B11, B12: what a build is given of what was read: the configuration, and the lists by columns, which are written into arrays that are
// lent.
pub fn input<'a>(
    read: SheetRead,
    waypoints: &'a mut [f64; WAYPOINTS_ROOM],
    first: &'a mut [f64; NUMBERS_ROOM],
    last: &'a mut [f64; NUMBERS_ROOM],
) -> SplineInput<'a>
    ensures { given_by result ≡ input_read read.entry }
{
    prepare(read, waypoints, first, last);
    let n = read.numbers;
    SplineInput {
        config: sheet_config::config_of(n),
        points: n.points,
        axes: n.axes,
        waypoints: &waypoints[..n.points * n.axes],
        start: &first[..n.start * n.axes],
        end: &last[..n.end * n.axes],
    }
}
