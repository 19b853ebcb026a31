// Definitions and laws for the code of the stream modes; no code.
#![tactic(auto)]
