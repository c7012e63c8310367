// The search where greedy gives up stands in specs/ and proofs/.
#![tactic(auto)]
