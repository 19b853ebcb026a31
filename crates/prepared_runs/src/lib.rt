// Preparing and running joined: demand 3 of the code, and wrong preparers that its statement rules out. Proofs alone.
#![tactic(auto)]
