// Answers in slots of the work room: definitions and laws alone.
#![tactic(auto)]
