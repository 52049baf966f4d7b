// Definitions and laws alone.
#![tactic(auto)]
