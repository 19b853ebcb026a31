// What a recipe means, and folding. No code.
#![tactic(auto)]
