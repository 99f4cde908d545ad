// The calls that set one part of the chip up, as definitions: their items, one after the other. The code is in `configure`.
#![tactic(auto)]
