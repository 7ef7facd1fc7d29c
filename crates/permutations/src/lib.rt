// The mathematics of maps, in specs/: there is no code here.
#![tactic(auto)]
