// A query's levels, the four buffers that a level may write, and document 01's questions of both. The questions look at lengths
// alone, so that they can be asked without a buffer. (In them a level stays a number: callers may hand over any, and a `Level` would ask
// more of them.)
#![tactic(auto)]

ghost use Rattle.std.specs.Prelude.{◌≡◌};
ghost use Rattle.rules.specs.Query.{writes, valid_length, lengths_of};
ghost use Rattle.query_levels.specs.Levels.{level_number, lengths, valid_lengths};
ghost use Rattle.query_levels.specs.Lent.{behind};

use rules::PathError;

// Q8: how far the derivatives are asked for.
#[derive(Clone, Copy)]
pub enum Level {
    Positions = 0,
    UpToSecond = 2,
    UpToThird = 3,
}

#[tactic(auto, unfolding(rules::specs::Query::valid_level))]
impl TryFrom<u8> for Level {
    ghost use Rattle.query_levels.specs.Levels.{LevelAnswered};

    type Error = PathError;

    ghost try_from_gives = { LevelAnswered };

    fn try_from(number: u8) -> Result<Level, PathError> {
        match number {
            0 => Ok(Level::Positions),
            2 => Ok(Level::UpToSecond),
            3 => Ok(Level::UpToThird),
            _ => Err(PathError::UnsupportedDerivativeOrder),
        }
    }
}

impl Level {
    // Q13: whether the level writes derivative k.
    pub fn writes(self, k: u8) -> bool
        ensures { result ≡ writes (level_number self) k }
    {
        k <= self as u8
    }
}

// The lengths of the four buffers.
#[derive(Clone, Copy)]
pub struct Lengths {
    pub q: usize,
    pub dq: usize,
    pub ddq: usize,
    pub dddq: usize,
}

// Q9, Q14: the buffer of derivative k: as long as the axes, or of any length where the level does not write it.
fn valid_length(axes: usize, level: u8, k: u8, cells: usize) -> bool
    ensures { result ≡ valid_length axes level k cells }
{
    level < k || cells == axes
}

impl Lengths {
    // Q9: the buffers of all four, for any number as a level.
    pub fn valid(self, axes: usize, level: u8) -> bool
        ensures { result ≡ valid_lengths axes level (lengths self) }
    {
        valid_length(axes, level, 0, self.q)
            && valid_length(axes, level, 1, self.dq)
            && valid_length(axes, level, 2, self.ddq)
            && valid_length(axes, level, 3, self.dddq)
    }
}

// The four buffers that a caller lends: positions, first, second and third derivatives. (That they are the same ones after a query stays a
// clause of each routine: a `&mut Buffers` can be given others, and no type forbids it.)
#[derive(Drop)]
pub struct Buffers<'a> {
    pub q: &'a mut [f64],
    pub dq: &'a mut [f64],
    pub ddq: &'a mut [f64],
    pub dddq: &'a mut [f64],
}

impl Buffers<'_> {
    pub fn lengths(&self) -> Lengths
        ensures { lengths result ≡ lengths_of (behind self.now) }
    {
        Lengths {
            q: self.q.len(),
            dq: self.dq.len(),
            ddq: self.ddq.len(),
            dddq: self.dddq.len(),
        }
    }
}
