// The longest and the largest plans: rows that are computed, and laws of every plan at its limits. They stand above the definitions of plans, where
// computing them would be repeated for each must-fail edit. There is no code here.
#![tactic(auto)]
