// T-10: how many erases a region's writes bring, as a statement (specs/), and its theorem (proofs/); no code.
#![tactic(auto)]
