// Board T: the session and the marked cases that the documents print, the starts and the cuts of its chip, computed by the rules and as said. specs/ has both, proofs/ that they are the same; no code.
#![tactic(auto)]
