// The worked examples of the papers as closed equations. No code.
#![tactic(auto)]
