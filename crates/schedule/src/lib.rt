// The scheduler is a definition and its theorems: see specs/ and proofs/.
#![tactic(auto)]
