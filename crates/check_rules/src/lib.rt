// No code: `specs/` has the check in the order that the code goes, `proofs/` that it is the nine rules of an orderly state that look at no mark.
#![tactic(auto)]
