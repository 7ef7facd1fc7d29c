// The definitions of the successor at a level (document 02, request Four), in specs/, and what holds of them, in proofs/: there is no code here.
#![tactic(auto)]
