// Laws of the whole numbers that the kit lacks. There is no code here.
#![tactic(auto)]
