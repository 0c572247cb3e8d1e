// Lists, and loops that fill them: definitions in specs/, laws in proofs/. It has no code.
#![tactic(auto)]
