// Laws of rounding on top of the kit's account of IEEE 754, for either format: what rounding can
// see of a number, and which bits the rounded number has. There is no code here.
#![tactic(auto)]
