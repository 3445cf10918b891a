// The theorem on calls and tails: its statement is specs/CallsRight.antt, its proof stands in proofs/.
#![tactic(auto)]
