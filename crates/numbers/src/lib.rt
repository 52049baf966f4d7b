// Numbers that never stand for one another (document 01, "Which places take which form"): each kind counts from 1.
#![tactic(auto)]

ghost use Rattle.std.specs.Prelude.{◌≡◌};
ghost use Rattle.numbers.specs.Nonzero.{nonzero};

// The most atoms of a program (document 01, "Program text").
pub const MAX_ATOMS: u16 = 126;

// The most rules of a program.
pub const MAX_RULES: u16 = 500;

// The most body atoms of a program, in all its lists.
pub const MAX_BODY_ATOMS: u16 = 500;

// The length of the array of heads.
pub const HEADS: usize = MAX_RULES as usize;

// The length of the array that says where each list of a rule starts, and where the last one ends.
pub const STARTS: usize = 2 * MAX_RULES as usize + 1;

// The length of the array of body atoms.
pub const BODIES: usize = MAX_BODY_ATOMS as usize;

#[derive(Clone, Copy, PartialEq, Eq)]
pub struct Atom(pub u16);

// A rule's place in text order.
#[derive(Clone, Copy, PartialEq, Eq)]
pub struct Rule(pub u16);

// A pair's place in text order (document 01, "Variables").
#[derive(Clone, Copy, PartialEq, Eq)]
pub struct Pair(pub u16);

// A variable of the clauses.
#[derive(Clone, Copy, PartialEq, Eq)]
pub struct Var(pub u16);

// The variable of an atom (document 01, "Variables": variable a is atom a).
impl From<Atom> for Var {
    ghost from_gives = { λ a v. v.0 ≡ a.0 };

    fn from(a: Atom) -> Var {
        Var(a.0)
    }
}

// The number k above 0; none for 0.
pub fn nonzero(k: u16) -> Option<u16>
    ensures { result ≡ nonzero k }
{
    match k {
        0 => None,
        _ => Some(k),
    }
}
