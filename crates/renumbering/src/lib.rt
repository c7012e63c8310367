// How the cells of a problem are numbered anew stands in specs/ and proofs/.
#![tactic(auto)]
