// Opening a block with the inverse mixing moved before the keys: definitions in specs/, laws in proofs/.
#![tactic(auto)]
