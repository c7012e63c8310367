// What `duggfrask why` says of a site, and that it is true, stands in specs/ and proofs/.
#![tactic(auto)]
