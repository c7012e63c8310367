// What a picture of a site and its plan has in it, and what is read back from its text, stands in specs/ and proofs/.
#![tactic(auto)]
