// What a call keeps of the values in use past it: statement and proof, no code.
#![tactic(auto)]
