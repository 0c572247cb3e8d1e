// What the programs read that try the library out: calls and expected answers from standard input, and a float's bits.
#![tactic(auto)]

pub mod bits;
pub mod read;
