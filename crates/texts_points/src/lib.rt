// Long texts at the bounds of section 5, as closed equations. No code.
#![tactic(auto)]
