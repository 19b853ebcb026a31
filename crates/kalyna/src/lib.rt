// Kalyna's block transformation and key schedule: definitions and their theorems. No code.
#![tactic(auto)]
