// Document 02, T-07: what a start makes of a chip, and that a start loses nothing (proofs/); no code.
#![tactic(auto)]
