// The verdict of the check (document 01, "Check and filling out"; document 02, Q-3). Its definition and its rows are in specs/, the laws in proofs/.
#![tactic(auto)]

use refusals::CheckRefusal;

// What a model shows: how many atoms are true, the highest level, and how many variables the answer left out, which are read as false.
#[derive(Clone, Copy, PartialEq, Eq)]
pub struct Shown {
    pub atoms: usize,
    pub highest: usize,
    pub assumed: usize,
}

// What the answer's model shows, or a refusal.
pub type CheckVerdict = Result<Shown, CheckRefusal>;
