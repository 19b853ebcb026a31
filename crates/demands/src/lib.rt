// The demands joined for the real cipher calls. No code.
#![tactic(auto)]
