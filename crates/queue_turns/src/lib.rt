// Document 02, T-01: a queue as a loop goes through it. specs/ has that way, proofs/ that it comes to what the rules say of a queue; no code.
#![tactic(auto)]
