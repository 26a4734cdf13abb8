// Laws of integers and of lists: no code. They stand in specs/.
#![tactic(auto)]
