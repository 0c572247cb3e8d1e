// What the programs have in common that try the library out: what was seen of a call, compared with what test_input reads, counted
// and printed.
#![tactic(auto)]

pub mod seen;
