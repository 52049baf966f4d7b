// What the tables of a program hold, by number, and the bounds of its numbers and lines: laws alone, no code.
#![tactic(auto)]
