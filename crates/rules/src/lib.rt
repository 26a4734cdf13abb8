// The rules of taking, and the case that a file spells. Definitions, no code. They stand in specs/.
#![tactic(auto)]
