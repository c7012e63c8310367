// What `find` finds for a problem stands in specs/ and proofs/.
#![tactic(auto)]
