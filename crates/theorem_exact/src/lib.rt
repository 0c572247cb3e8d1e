// Theorem: two-point builds of whole numbers are exact. The statement is in specs/. There is no code here.
#![tactic(auto)]
