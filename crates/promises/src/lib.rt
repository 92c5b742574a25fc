// What is promised of every call: statements and proofs, the log among them. There is no code here.
#![tactic(auto)]
