// Laws of filling in the marks of a case: no code. They stand in specs/; start at specs/Theorems.antt.
#![tactic(auto)]
