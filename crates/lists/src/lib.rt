// Lists of values: which are good, and what they give each name. No code.
#![tactic(auto)]
