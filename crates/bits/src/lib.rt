// Bitwise operations, bit by bit: laws that several crates cite, no code.
#![tactic(auto)]
