// Laws of taking records by the rules: no code. They stand in specs/; start at specs/Theorems.antt.
#![tactic(auto)]
