// Long worked examples of preparing. No code.
#![tactic(auto)]
