// Demand 3 on the bytes of the three calls for C: a claim and its proof. No code.
#![tactic(auto)]
