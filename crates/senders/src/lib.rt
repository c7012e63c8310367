// What the lines of a cell say is so: it stands in proofs/.
#![tactic(auto)]
