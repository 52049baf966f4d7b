// The verdicts of the line call and of the call for a run of lines (document 01, "Clauses, in order"). Their definitions and rows are in specs/.
#![tactic(auto)]

use refusals::LineRefusal;

// The length of the line written, or a refusal.
pub type LineVerdict = Result<usize, LineRefusal>;

// How many lines are written, and how many bytes they are.
#[derive(Clone, Copy, PartialEq, Eq)]
pub struct Run {
    pub lines: usize,
    pub bytes: usize,
}

// A run of lines, or a refusal.
pub type RunVerdict = Result<Run, LineRefusal>;
