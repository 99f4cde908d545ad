// The states that the modelled chip gets into, and what is true of all of them: no code.
#![tactic(auto)]
