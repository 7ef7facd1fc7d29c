// The definitions of a base from a stitch plan (document 02, request One), in specs/, and what holds of them, in proofs/: there is no code here.
#![tactic(auto)]
