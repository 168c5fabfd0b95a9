// The credentials file as document 01 first had it: definitions in specs/, theorems in proofs/. There is no code here.
#![tactic(auto)]
