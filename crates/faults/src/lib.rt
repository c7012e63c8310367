// Every fault of a table, in the checker's order, stands in specs/ and proofs/.
#![tactic(auto)]
