// A program in flat arrays.
#![tactic(auto)]

ghost use Rattle.std.specs.Prelude.{◌-◌, ◌≤◌, ◌<◌, ◌≡◌, length, get_or};
ghost use Rattle.program.specs.Arrays.{empty_program};

use numbers::{Atom, BODIES, HEADS, Rule, STARTS};

// A program: n atoms, its rules in text order, and the body atoms of all rules, those of rule r (from 0) at starts[2r] to starts[2r + 1]
// for its positive list and at starts[2r + 1] to starts[2r + 2] for its negative one. What lies past the counts is 0.
// Kept as flat arrays beside their counts: document 01 names this form.
#[derive(Drop)]
pub struct Program {
    pub atoms: u16,
    pub rules: u16,
    pub held: u16,
    pub heads: [u16; HEADS],
    pub starts: [u16; STARTS],
    pub bodies: [u16; BODIES],
}

// The head of rule r.
pub fn head(heads: &[u16], r: Rule) -> Atom
    requires { (0 < r.0) × (r.0 ≤ length heads.now) }
    ensures { result.0 ≡ get_or heads.now (r.0 - 1) 0 }
{
    Atom(heads[usize::from(r.0) - 1])
}

// The program with no atom and no rule.
#[tactic(auto, unfolding(crate::specs::Arrays::empty_program))]
pub fn empty() -> Program
    ensures { result ≡ empty_program }
{
    Program {
        atoms: 0,
        rules: 0,
        held: 0,
        heads: [0; HEADS],
        starts: [0; STARTS],
        bodies: [0; BODIES],
    }
}
