// The contracts of the public functions stand in specs/ and proofs/.
#![tactic(auto)]
