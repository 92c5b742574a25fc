// How large a run can get: a definition and its theorems, in specs/ and proofs/. Crate `size` works the two figures out.
#![tactic(auto)]
