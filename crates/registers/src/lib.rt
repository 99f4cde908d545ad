// All register kinds in one table, and what is proved of the whole table: no code.
#![tactic(auto)]
