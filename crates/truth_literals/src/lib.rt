// Values of the variables of a table, and truth of single literals, of clauses of two and three, and of a chain's bit (document 01, "Check and filling out").
#![tactic(auto)]

ghost use Rattle.std.specs.Prelude.{◌≤◌, ◌≡◌, ◌||◌, length};
ghost use Rattle.std.proofs.Props.{props};
ghost use Rattle.encoding.specs.Literal.{−◌, literal_true};
ghost use Rattle.clause_walk.specs.Walk.{signed};
ghost use Rattle.clause_tables.specs.Tables.{vars_in};
ghost use Rattle.truth_literals.specs.Values.{value_in, number_true};
ghost use Rattle.truth_literals.specs.Clauses.{Has, LiteralIn, two_true, pairs_true, BitIn, bit_true};

use clause_cells::Table;
use clause_chains::Chain;
use clause_literals::{is_negative, literal, magnitude, negated, with_sign};
use numbers::Var;

// A table with the values of its variables: a byte for each, and maybe more.
#[derive(Clone, Copy)]
pub struct ValuedTable<'a> {
    pub table: Table<'a>,
    pub values: &'a [u8],
    pub ghost long: { vars_in table.cells.now ≤ length values.now } by { Prim.hlevel props },
}

// Whether the byte of variable v, counted from 1, is not 0.
fn byte_set(assignment: &[u8], v: usize) -> bool
    requires { Has assignment.now v }
    ensures { result ≡ value_in assignment.now v }
{
    assignment[v - 1] != 0
}

// Whether variable v has 1.
pub fn is_true(assignment: &[u8], v: Var) -> bool
    requires { Has assignment.now v.0 }
    ensures { result ≡ value_in assignment.now v.0 }
{
    byte_set(assignment, usize::from(v.0))
}

// Whether the literal x is true: its sign and its variable's value.
// Kept as a fact about each literal: it is of the literal and the assignment together, and each call has another literal.
pub fn holds(x: i32, assignment: &[u8]) -> bool
    requires { LiteralIn assignment.now x }
    ensures { result ≡ number_true assignment.now x }
{
    let v = byte_set(assignment, magnitude(x) as usize);
    if is_negative(x) { !v } else { v }
}

// Kept as & and |: this and the crates above join conditions without branches, since the check of an answer is measured against hand-tuned Rust.

// Whether a clause of two literals is true, and of three.
// Kept as a fact about each literal, as in `holds`.
pub fn two_hold(x: i32, y: i32, assignment: &[u8]) -> bool
    requires { (LiteralIn assignment.now x) × (LiteralIn assignment.now y) }
    ensures { result ≡ (number_true assignment.now x || number_true assignment.now y) }
{
    holds(x, assignment) | holds(y, assignment)
}

pub fn three_hold(x: i32, y: i32, z: i32, assignment: &[u8]) -> bool
    requires { (LiteralIn assignment.now x) × (LiteralIn assignment.now y) × (LiteralIn assignment.now z) }
    ensures { result
        ≡ ((number_true assignment.now x || number_true assignment.now y) || number_true assignment.now z) }
{
    two_hold(x, y, assignment) | holds(z, assignment)
}

// Whether variable v has 1 where `on` holds, else 0.
pub fn stands(on: bool, v: Var, assignment: &[u8]) -> bool
    requires { Has assignment.now v.0 }
    ensures { result ≡ literal_true (value_in assignment.now) (signed on v.0) }
{
    holds(with_sign(on, v), assignment)
}

// Whether the clause is true that x has 0, or v has 1 where `on` holds, else 0.
pub fn implies(x: Var, on: bool, v: Var, assignment: &[u8]) -> bool
    requires { (Has assignment.now x.0) × (Has assignment.now v.0) }
    ensures { result ≡ two_true (value_in assignment.now) (− x.0) (signed on v.0) }
{
    two_hold(negated(x), with_sign(on, v), assignment)
}

// Whether every clause of a chain's first bit is true.
pub fn first_bit_holds(c: Chain, assignment: &[u8]) -> bool
    requires { BitIn assignment.now c 1 }
    ensures { result ≡ bit_true (value_in assignment.now) c 1 }
{
    let z = literal(c.z);
    let x = literal(c.x);
    let y = literal(c.y);
    let no_z = negated(c.z);
    let no_x = negated(c.x);
    let no_y = negated(c.y);
    two_hold(no_z, no_x, assignment)
        & two_hold(no_z, y, assignment)
        & three_hold(z, x, no_y, assignment)
}

// Whether the three clauses that have z and two of x, y and g are true.
fn pairs_hold(z: i32, x: i32, y: i32, g: i32, assignment: &[u8]) -> bool
    requires { (LiteralIn assignment.now z) × (LiteralIn assignment.now x) × (LiteralIn assignment.now y) × (LiteralIn assignment.now g) }
    ensures { result ≡ pairs_true (number_true assignment.now) z x y g }
{
    three_hold(z, x, y, assignment)
        & three_hold(z, x, g, assignment)
        & three_hold(z, y, g, assignment)
}

// Whether every clause of a further bit is true.
pub fn next_bit_holds(c: Chain, assignment: &[u8]) -> bool
    requires { BitIn assignment.now c 2 }
    ensures { result ≡ bit_true (value_in assignment.now) c 2 }
{
    let z = literal(c.z);
    let x = literal(c.x);
    let y = literal(c.y);
    let g = literal(c.g);
    let no_z = negated(c.z);
    let no_x = negated(c.x);
    let no_y = negated(c.y);
    let no_g = negated(c.g);
    pairs_hold(no_z, no_x, y, g, assignment) & pairs_hold(z, x, no_y, no_g, assignment)
}
