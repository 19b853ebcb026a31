// What the key schedule's code is proved with; see specs/ and proofs/.
#![tactic(auto)]
