// The examples of the desk table stand in specs/ and proofs/.
#![tactic(auto)]
