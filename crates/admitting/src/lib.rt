// Which sets of flows may be admitted, and the best of them, stand in specs/ and proofs/.
#![tactic(auto)]
