// The modes of document 003, sections 7 to 11, and the twelve cipher calls: definitions and their theorems. No code.
#![tactic(auto)]
