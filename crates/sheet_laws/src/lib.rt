// Laws of the judge of job sheets (crates/rules/specs/SheetReading.antt): what its readings read is a spelling, every spelling is
// read, and a limit is met before or after a fault. There is no code here.
#![tactic(auto)]
