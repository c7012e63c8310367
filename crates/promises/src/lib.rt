// What the owner of the product may rely on stands in specs/ and proofs/.
#![tactic(auto)]
