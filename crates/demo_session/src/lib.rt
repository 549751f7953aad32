// What the bench program prints, whole, as a function of what it reads (specs/), and document 01's example to the byte (proofs/); no code.
#![tactic(auto)]
