// Rows of a table of sentences, read back from a text, stand in specs/ and proofs/.
#![tactic(auto)]
