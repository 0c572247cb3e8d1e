// What the routines of the reader of job sheets share: the text with the place up to which it was read, and a refusal with its place.
// What an answer says in the terms of the judge (crates/rules/specs/SheetReading.antt) stands in specs/. That the text is the same after a
// routine stays a clause of each: a `&mut Cursor` can be given another text, and no type forbids it.
#![tactic(auto)]

ghost use Rattle.std.specs.Prelude.{◌≡◌, ◌≤◌, length, slice_get};
ghost use Rattle.sheet_reading.specs.Says.{invalid_at, Passed};

use rules::{PathError, SheetError};

// A text, and the place up to which it was read. (The place stays a number beside the text, and the text is not cut down to what is
// left: a refusal tells its place as counted from the text's first byte, so the text's length would have to stand beside the rest.)
#[derive(Clone, Copy)]
pub struct Cursor<'a> {
    pub text: &'a [u8],
    pub at: usize,
    pub ghost inside: { at ≤ length text.now },
}

impl Cursor<'_> {
    // The byte that is read next, if the text is not at its end.
    pub fn byte(&self) -> Option<u8>
        ensures { result ≡ slice_get self.now.text.now self.now.at }
    {
        self.text.get(self.at).copied()
    }

    // Passes a byte, if it stands there.
    pub fn eat(&mut self, b: u8) -> bool
        ensures same { self.new.text.now ≡ self.old.text.now }
        ensures says { Passed self.old.text.now self.old.at b self.new.at result }
    {
        if self.byte() == Some(b) {
            self.at += 1;
            return true;
        }
        false
    }
}

// A list that was read into a buffer: how many numbers the buffer holds with it, and the place of the item in which it was filled up. (That
// place stays a number: where the buffer was not filled up nobody reads it, and an `Option` would be matched in the list's loop.)
#[derive(Clone, Copy)]
pub struct Count {
    pub numbers: usize,
    pub over: usize,
}

// J17: 600 at a place.
pub fn invalid_sheet(at: usize) -> SheetError
    ensures { result ≡ invalid_at at }
{
    SheetError {
        cause: PathError::InvalidSheet,
        at,
    }
}
