// Theorems: whole numbers evaluate exactly at both ends of a segment, and masters to what they were made from. Statements in specs/. There is no code here.
#![tactic(auto)]
