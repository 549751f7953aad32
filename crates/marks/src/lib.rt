// Document 02, T-06: what the marks say (specs/), and what each step makes of the table of marks (specs/Kept, proofs/); no code.
#![tactic(auto)]
