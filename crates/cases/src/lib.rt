// The scope document's table of checked cases: no code.
#![tactic(auto)]
