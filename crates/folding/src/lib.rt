// Folding read from the top: definitions and laws alone.
#![tactic(auto)]
