// Truth of whole items of groups 3, 4 and 5 under an assignment: counters and chains (document 01, "Check and filling out").
#![tactic(auto)]

ghost use Rattle.std.specs.Prelude.{pred, ◌+◌, ◌^◌, ◌<◌, ◌≡◌, ◌||◌, ◌&&◌};
ghost use Rattle.encoding.specs.Literal.{var, −◌};
ghost use Rattle.clause_chains.specs.Chain.{chain_with};
ghost use Rattle.truth_literals.specs.Values.{value_in};
ghost use Rattle.truth_literals.specs.Clauses.{Has, two_true, three_true};
ghost use Rattle.truth_levels.specs.Levels.{LevelIn, PairIn, ChainIn, zero_true, next_true, nexts_true, chain_true, pair_true};

use clause_chains::Chain;
use clause_literals::{Sizes, literal, negated};
use numbers::{Atom, Pair, Var};
use truth_literals::{first_bit_holds, is_true, next_bit_holds, three_hold, two_hold};

// Group 3, atom a: whether every clause is true.
pub fn zero_holds(s: Sizes, a: Atom, assignment: &[u8]) -> bool
    requires { LevelIn assignment.now s a.0 }
    ensures { result ≡ zero_true (value_in assignment.now) s a.0 }
{
    let w = s.w;
    let x = literal(Var::from(a));
    let mut ok = true;
    for y in 0..w {
        ok &= two_hold(x, negated(s.level_var(a, y + 1)), assignment);
    }
    ok
}

// Group 4, with a bit of a next, u, and that bit of its level, v: whether both clauses of a lower bit x are true.
// Kept as a fact about each variable: a call is about three of them, and no two calls about the same.
fn lower_holds(x: Var, u: Var, v: Var, assignment: &[u8]) -> bool
    requires { (Has assignment.now x.0) × (Has assignment.now u.0) × (Has assignment.now v.0) }
    ensures { result
        ≡ (three_true (value_in assignment.now) (var x.0) (− u.0) (var v.0)
        && three_true (value_in assignment.now) (var x.0) (var u.0) (− v.0)) }
{
    three_hold(literal(x), negated(u), literal(v), assignment)
        & three_hold(literal(x), literal(u), negated(v), assignment)
}

// Whether both long clauses are true, where `low` says that some lower bit has 0.
fn long_hold(low: bool, u: Var, v: Var, assignment: &[u8]) -> bool
    requires { (Has assignment.now u.0) × (Has assignment.now v.0) }
    ensures { result
        ≡ ((low || two_true (value_in assignment.now) (− u.0) (− v.0))
        && (low || two_true (value_in assignment.now) (var u.0) (var v.0))) }
{
    (low | two_hold(negated(u), negated(v), assignment))
        & (low | two_hold(literal(u), literal(v), assignment))
}

// Group 4, atom a: whether every clause of bit i + 1 is true.
fn bit_of_next_holds(s: Sizes, a: Atom, i: u16, assignment: &[u8]) -> bool
    requires { (LevelIn assignment.now s a.0) × (i < s.w) }
    ensures { result ≡ next_true (value_in assignment.now) s a.0 (i + 1) }
{
    // Reads a field: from here on the bounds of s are known.
    let _ = &s.w;
    let u = s.next_var(a, i + 1);
    let v = s.level_var(a, i + 1);
    let mut ok = true;
    let mut low = false;
    for j in 0..i {
        let x = s.level_var(a, j + 1);
        ok &= lower_holds(x, u, v, assignment);
        low |= !is_true(assignment, x);
    }
    ok & long_hold(low, u, v, assignment)
}

// Group 4, atom a: whether every clause is true.
pub fn next_holds(s: Sizes, a: Atom, assignment: &[u8]) -> bool
    requires { LevelIn assignment.now s a.0 }
    ensures { result ≡ nexts_true (value_in assignment.now) s a.0 }
{
    let w = s.w;
    let mut ok = true;
    for i in 0..w {
        ok &= bit_of_next_holds(s, a, i, assignment);
    }
    ok
}

// Bit i, from 1, of a chain, where z, x and y are the variables before those of its first bit.
fn chain_bit(z: Var, x: Var, y: Var, i: u16) -> Chain
    requires { (0 < i) × (z.0 + i < 2 ^ 16) × (x.0 + i < 2 ^ 16) × (y.0 + i < 2 ^ 16) }
    ensures { result ≡ chain_with (z.0 + i) (x.0 + i) (y.0 + i) (z.0 + pred i) }
{
    Chain {
        z: Var(z.0 + i),
        x: Var(x.0 + i),
        y: Var(y.0 + i),
        g: Var(z.0 + (i - 1)),
    }
}

// A chain of w bits, where z, x and y are the variables before those of its first bit: whether every clause is true.
fn chain_holds(w: u16, z: Var, x: Var, y: Var, assignment: &[u8]) -> bool
    requires { ChainIn assignment.now w z.0 x.0 y.0 }
    ensures { result ≡ chain_true (value_in assignment.now) w z.0 x.0 y.0 }
{
    let mut ok = first_bit_holds(chain_bit(z, x, y, 1), assignment);
    for i in 1..w {
        ok &= next_bit_holds(chain_bit(z, x, y, i + 1), assignment);
    }
    ok
}

// Group 5, pair k of body atom b and head h: whether every clause of both chains is true.
pub fn pair_holds(s: Sizes, k: Pair, b: Atom, h: Atom, assignment: &[u8]) -> bool
    requires { PairIn assignment.now s k.0 b.0 h.0 }
    ensures { result ≡ pair_true (value_in assignment.now) s k.0 b.0 h.0 }
{
    let w = s.w;
    let x = s.level_var(b, 0);
    let y = s.level_var(h, 0);
    chain_holds(w, s.below_var(k, 0), x, y, assignment)
        & chain_holds(w, s.next_below_var(k, 0), s.next_var(b, 0), y, assignment)
}
