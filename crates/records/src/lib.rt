// Recipes as records of an image. No code.
#![tactic(auto)]
