// Theorems about numbers on a sheet that are read in pieces: wherever the bytes are cut, the answer is that of the whole. Statements in
// specs/. There is no code here.
#![tactic(auto)]
