// Where the ops of a function stand in the finished program: statements and proofs, no code.
#![tactic(auto)]
