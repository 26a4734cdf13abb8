// Laws of the rounds of a loop: no code. They stand in specs/; what is proved of the calls is in the crate loops, specs/Theorems.antt.
#![tactic(auto)]
