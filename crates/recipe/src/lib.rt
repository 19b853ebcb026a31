// Preparing and running as wholes, and what joins them. No code.
#![tactic(auto)]
