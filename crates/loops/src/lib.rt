// No code: `proofs/` has what one turn of a loop adds, and what a lent part is, as laws of `lists`.
#![tactic(auto)]
