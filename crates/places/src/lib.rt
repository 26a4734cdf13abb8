// Laws of a case with other places: no code. They stand in specs/Replaced.antt.
#![tactic(auto)]
