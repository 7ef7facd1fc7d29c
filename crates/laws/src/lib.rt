// What holds of the definitions of document 01, in proofs/: there is no code here.
#![tactic(auto)]
