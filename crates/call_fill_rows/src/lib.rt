// The verdict of filling out (document 01, "Check and filling out"). Its definition and its rows are in specs/, the laws in proofs/.
#![tactic(auto)]

use refusals::FillRefusal;

// A set that is filled out: how many atoms are true, and the highest level.
#[derive(Clone, Copy, PartialEq, Eq)]
pub struct Filled {
    pub atoms: usize,
    pub highest: usize,
}

// What a set that is filled out has, or a refusal.
pub type FillVerdict = Result<Filled, FillRefusal>;
