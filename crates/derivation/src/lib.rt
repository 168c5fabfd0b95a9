// The entries of a query, with how each was derived: definitions and laws. No code.
#![tactic(auto)]
