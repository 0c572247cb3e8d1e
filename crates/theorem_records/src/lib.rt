// What holds of the records that cross the boundary to C (crates/tezvorup_records), and the numbers that each export can answer. There is
// no code here.
#![tactic(auto)]
