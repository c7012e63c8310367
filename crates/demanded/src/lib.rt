// The demands on planner, checker and judges stand in specs/ and proofs/.
#![tactic(auto)]
