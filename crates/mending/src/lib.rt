// How a table from another planner is mended stands in specs/ and proofs/.
#![tactic(auto)]
