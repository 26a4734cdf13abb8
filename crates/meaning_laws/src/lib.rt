// Laws of the meaning of a plan: no code. They stand in specs/; start at specs/Theorems.antt.
#![tactic(auto)]
