// Notation and laws that several crates cite: no code.
#![tactic(auto)]
