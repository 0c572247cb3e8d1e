// Theorems: which texts are job sheets, and where a text is refused. The statements are in specs/; most of what they rest on is in
// crates/sheet_laws. There is no code here.
#![tactic(auto)]
