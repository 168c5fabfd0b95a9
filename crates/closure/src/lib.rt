// Entries closed under statements: definitions. No code.
#![tactic(auto)]
