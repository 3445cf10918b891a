// Rows are a definition: specs/Rows.antt. Laws of loops over them stand in proofs/.
#![tactic(auto)]
