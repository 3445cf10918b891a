// The theorem on moves for lists whose equal pairs are dropped, as edges and calls drop them: proofs/Pairs.antt.
#![tactic(auto)]
