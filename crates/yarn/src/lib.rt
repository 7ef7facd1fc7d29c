// The definitions of the calls that are lent yarn sheets (document 02, request Five), in specs/, and what holds of them, in proofs/: there is no code here.
#![tactic(auto)]
