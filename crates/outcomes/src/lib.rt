// What a call is claimed to do (specs/), the two ends of any call, by its reply's number, and a call with a budget (proofs/); no code.
#![tactic(auto)]
