// What is true of the thirteen numbers of `call_why::explain` (specs/), and its theorems (proofs/); no code.
#![tactic(auto)]
