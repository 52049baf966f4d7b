// One table for each program, made once before its clauses are walked: its counts, its arrays, those of its pairs (document 01, "Variables") and
// the rules of each atom.
#![tactic(auto)]

use clause_literals::Sizes;

// Where each region of the table begins. Its cells past those in use are 0.
pub const HEADS_AT: usize = 16;

pub const BODIES_AT: usize = 516;

pub const BEFORE_AT: usize = 1016;

pub const PARTNERS_AT: usize = 1517;

pub const OWNERS_AT: usize = 2017;

pub const STARTS_AT: usize = 2517;

pub const FIRSTS_AT: usize = 3518;

pub const LINKS_AT: usize = 3644;

// How many cells it has in all.
pub const CELLS: usize = 4144;

// The sizes, the number of pairs, V and C.
#[derive(Clone, Copy)]
pub struct Totals {
    pub sizes: Sizes,
    pub pairs: u16,
    pub vars: usize,
    pub clauses: usize,
}
