// No pivot of an inner node is zero, and the nodes' matrices repeat. Statements in specs/. There is no code here.
#![tactic(auto)]
