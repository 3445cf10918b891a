// Two values in use at once never share a place: the statement is specs/Sharing.antt, the proof stands in proofs/.
#![tactic(auto)]
