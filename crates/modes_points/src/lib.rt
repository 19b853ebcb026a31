// Worked examples of the modes as closed equations. No code.
#![tactic(auto)]
