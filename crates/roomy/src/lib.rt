// How much more a cell could carry stands in specs/ and proofs/.
#![tactic(auto)]
