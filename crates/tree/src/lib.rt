// Trees and the table of calls: definitions. No code.
#![tactic(auto)]
