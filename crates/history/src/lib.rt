// Histories: calls run against the modelled chip, with bus steps and failed exchanges anywhere, and what is proved of all of them: no
// code.
#![tactic(auto)]
