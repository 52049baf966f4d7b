// Group 5: the variables of a chain's bit, and the literal in a slot of one of its clauses (document 01, "Clauses, in order").
#![tactic(auto)]

ghost use Rattle.std.specs.Prelude.{◌+◌, ◌≤◌, ◌<◌, ◌≡◌};
ghost use Rattle.encoding.specs.Literal.{literal_number};
ghost use Rattle.clause_walk.specs.Walk.{chain_first, chain_next, chain_slot, chain_size, chain_slots, chain_bit};
ghost use Rattle.clause_chains.specs.Chain.{chain_of};

use clause_literals::{Sizes, literal, negated, of_three, of_two};
use numbers::{Atom, Pair, Var};

// The variables of a chain's bit: z, x and y, and g, which is z at the bit before.
#[derive(Clone, Copy)]
pub struct Chain {
    pub z: Var,
    pub x: Var,
    pub y: Var,
    pub g: Var,
}

// Pair k of body atom b and head h: the chain's bit of block i.
// Kept as two literals: z and g come of one function and x of another, so that one helper would take both as closures.
pub fn chain_of(s: Sizes, k: Pair, b: Atom, h: Atom, i: u16) -> Chain
    requires { (0 < k.0) × (k.0 ≤ 500) × (0 < b.0) × (b.0 ≤ 126) × (0 < h.0) × (h.0 ≤ 126) × (0 < i) × (i ≤ s.w + s.w) }
    ensures { result ≡ chain_of s k.0 b.0 h.0 i }
{
    let w = s.w;
    if i <= w {
        Chain {
            z: s.below_var(k, i),
            x: s.level_var(b, i),
            y: s.level_var(h, i),
            g: s.below_var(k, i - 1),
        }
    } else {
        let j = i - w;
        Chain {
            z: s.next_below_var(k, j),
            x: s.next_var(b, j),
            y: s.level_var(h, j),
            g: s.next_below_var(k, j - 1),
        }
    }
}

// Slot l of clause c of a chain's first bit.
fn chain_first(z: Var, x: Var, y: Var, c: u16, l: u16) -> i32
    ensures { result ≡ literal_number (chain_first z.0 x.0 y.0 c l) }
{
    match c {
        1 => of_two(negated(z), negated(x), l),
        2 => of_two(negated(z), literal(y), l),
        _ => of_three(literal(z), literal(x), negated(y), l),
    }
}

// Of a further bit, where g is z at the bit before.
fn chain_next(z: Var, x: Var, y: Var, g: Var, c: u16, l: u16) -> i32
    ensures { result ≡ literal_number (chain_next z.0 x.0 y.0 g.0 c l) }
{
    match c {
        1 => of_three(negated(z), negated(x), literal(y), l),
        2 => of_three(negated(z), negated(x), literal(g), l),
        3 => of_three(negated(z), literal(y), literal(g), l),
        4 => of_three(literal(z), literal(x), negated(y), l),
        5 => of_three(literal(z), literal(x), negated(g), l),
        _ => of_three(literal(z), negated(y), negated(g), l),
    }
}

// Slot l of clause y of bit i.
pub fn chain_literal(c: Chain, i: u16, y: u16, l: u16) -> i32
    ensures { result ≡ literal_number (chain_slot c.z.0 c.x.0 c.y.0 c.g.0 i y l) }
{
    match i {
        1 => chain_first(c.z, c.x, c.y, y, l),
        _ => chain_next(c.z, c.x, c.y, c.g, y, l),
    }
}

// The bit of block i, how many clauses a bit has, and how many slots its clause c has.
pub fn chain_bit(w: u16, i: u16) -> u16
    ensures { result ≡ chain_bit w i }
{
    if i <= w { i } else { i - w }
}

pub fn chain_size(i: u16) -> u16
    ensures { result ≡ chain_size i }
{
    match i {
        1 => 3,
        _ => 6,
    }
}

pub fn chain_slots(i: u16, c: u16) -> u16
    ensures { result ≡ chain_slots i c }
{
    if i == 1 && c != 3 { 2 } else { 3 }
}
