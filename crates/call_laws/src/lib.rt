// What the calls have in common, as laws: the tables of a program that was read, and what the answer to its text says of it.
#![tactic(auto)]
