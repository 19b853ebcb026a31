// Answers, lists by their places, and choices: definitions and laws that every layer cites. No code.
#![tactic(auto)]
