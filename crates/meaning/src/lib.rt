// What a plan means: the run, truth, acceptance, and what each answer of a judgement says. Definitions, no code. They stand in specs/.
#![tactic(auto)]
