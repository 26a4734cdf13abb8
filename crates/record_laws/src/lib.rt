// Laws of the field's spelling: no code. They stand in specs/; start at specs/Spelled.antt.
#![tactic(auto)]
