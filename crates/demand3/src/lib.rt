// Demand 3 of what compiling emits: statement and proof, no code.
#![tactic(auto)]
