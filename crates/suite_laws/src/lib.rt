// What every row of the suite table has in common. No code.
#![tactic(auto)]
