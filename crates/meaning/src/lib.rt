// The meaning of RT^T_+: definitions in specs/, theorems in proofs/. There is no code here.
#![tactic(auto)]
