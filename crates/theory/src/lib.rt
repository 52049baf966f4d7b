// Definitions and laws alone: see specs/ and proofs/.
#![tactic(auto)]
