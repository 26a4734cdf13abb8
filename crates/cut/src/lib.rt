// A counted loop cut in two is accepted as the whole one is: theorems, no code. They stand in specs/.
#![tactic(auto)]
