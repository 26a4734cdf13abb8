// Laws of the computed answer, which is the one that the meaning leaves: no code. They stand in specs/; start at specs/Theorems.antt.
#![tactic(auto)]
