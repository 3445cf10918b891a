// The theorem on edges: its statement is specs/EdgesRight.antt, its proof stands in proofs/.
#![tactic(auto)]
