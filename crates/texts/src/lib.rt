// Recipes as text: definitions in specs/, their laws in proofs/.
#![tactic(auto)]
