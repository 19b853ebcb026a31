// The rule of the lookup tables, and its laws. No code.
#![tactic(auto)]
