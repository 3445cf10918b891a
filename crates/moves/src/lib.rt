// The rule of parallel moves and its theorem; no code. The statement stands in specs/AtOnce.antt, its proof in proofs/.
#![tactic(auto)]
