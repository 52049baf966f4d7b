// Literals as signed 32-bit numbers, the width, and the numbers of the variables (document 01, "Variables" and "Which places take which form").
// Only these functions compute with an i32; other crates pass it on.
#![tactic(auto)]

ghost use Rattle.std.specs.Prelude.{◌^◌, ◌≤◌, ◌<◌, ◌≡◌, cond, eqb, neg_ℤ, nat_abs};
ghost use Rattle.encoding.specs.Literal.{literal_number, var, −◌};
ghost use Rattle.encoding.specs.Width.{width};
ghost use Rattle.encoding.specs.Variables.{body_var, founds_var, level_var, next_var, below_var, next_below_var, var_count};
ghost use Rattle.clause_literals.specs.Signed.{is_negative};

use numbers::{Atom, Pair, Rule, Var};
use std::marker::Model;

// Variable v as a literal.
pub fn literal(v: Var) -> i32
    ensures { result ≡ literal_number (var v.0) }
{
    i32::from(v.0)
}

// A literal's negation. -2^31 has none in an i32.
// Kept as a bound of the number: an `i32` has one number without an opposite, and literals are signed 32-bit (document 01).
pub fn negate(x: i32) -> i32
    requires { nat_abs x < 2 ^ 31 }
    ensures { result ≡ neg_ℤ x }
{
    -x
}

// The negation of variable v as a literal.
pub fn negated(v: Var) -> i32
    ensures { result ≡ literal_number (− v.0) }
{
    negate(literal(v))
}

// Variable v as a literal, negated if it is not to stand positive.
pub fn with_sign(positive: bool, v: Var) -> i32
    ensures { result ≡ literal_number (cond positive (var v.0) (− v.0)) }
{
    if positive { literal(v) } else { negated(v) }
}

// The literal in slot l of a clause of two literals, and of three.
pub fn of_two(x: i32, y: i32, l: u16) -> i32
    ensures { result ≡ cond (eqb l 1) x y }
{
    match l {
        1 => x,
        _ => y,
    }
}

// Kept as literals one by one: a clause of three is formed from them.
pub fn of_three(x: i32, y: i32, z: i32, l: u16) -> i32
    ensures { result ≡ cond (eqb l 1) x (cond (eqb l 2) y z) }
{
    match l {
        1 => x,
        2 => y,
        _ => z,
    }
}

// The sign of a literal.
pub fn is_negative(x: i32) -> bool
    ensures { result ≡ is_negative x }
{
    x.is_negative()
}

// A literal without its sign: the number of its variable.
pub fn magnitude(x: i32) -> u32
    requires { nat_abs x < 2 ^ 31 }
    ensures { result ≡ nat_abs x }
{
    x.unsigned_abs()
}

// The width of a counter for n atoms: as many bits as n + 1 has, the smallest w with n + 2 <= 2^w.
pub fn width_of(n: u16) -> u16
    ensures { result ≡ width n }
{
    (u32::BITS - (u32::from(n) + 1).leading_zeros()) as u16
}

// n atoms, m rules and counters of w bits, within the bounds of a program.
#[derive(Clone, Copy)]
pub struct Sizes {
    pub n: u16,
    pub m: u16,
    pub w: u16,
}

impl Model for Sizes {
    ghost use Rattle.encoding.specs.Variables.{Sizes as Of};
    ghost use Rattle.clause_literals.specs.Sizes.{Bounded};

    ghost Value = { Of };

    ghost view = { λ s. record { n = s.n; m = s.m; w = s.w } };

    ghost invariant = { λ s. Bounded (record { n = s.n; m = s.m; w = s.w }) };

    ghost inverse = { λ s. record { n = s.n; m = s.m; w = s.w } };
}

impl Sizes {
    // t(r): the body of rule r is true.
    pub fn body_var(self, r: Rule) -> Var
        requires { r.0 ≤ 500 }
        ensures { result.0 ≡ body_var self r.0 }
    {
        Var(self.n + r.0)
    }

    // s(r): rule r founds its head.
    pub fn founds_var(self, r: Rule) -> Var
        requires { r.0 ≤ 500 }
        ensures { result.0 ≡ founds_var self r.0 }
    {
        Var(self.n + self.m + r.0)
    }

    // v(a,i): bit i of the level of atom a.
    pub fn level_var(self, a: Atom, i: u16) -> Var
        requires { (0 < a.0) × (a.0 ≤ 126) × (i ≤ 7) }
        ensures { result.0 ≡ level_var self a.0 i }
    {
        Var(self.n + 2 * self.m + (a.0 - 1) * self.w + i)
    }

    // u(a,i): bit i of the next of atom a.
    pub fn next_var(self, a: Atom, i: u16) -> Var
        requires { (0 < a.0) × (a.0 ≤ 126) × (i ≤ 7) }
        ensures { result.0 ≡ next_var self a.0 i }
    {
        Var(self.n + 2 * self.m + self.n * self.w + (a.0 - 1) * self.w + i)
    }

    // p(k,i): pair k, level below, at bit i.
    pub fn below_var(self, k: Pair, i: u16) -> Var
        requires { (0 < k.0) × (k.0 ≤ 500) × (i ≤ 7) }
        ensures { result.0 ≡ below_var self k.0 i }
    {
        Var(self.n + 2 * self.m + 2 * self.n * self.w + 2 * (k.0 - 1) * self.w + i)
    }

    // q(k,i): pair k, next below, at bit i; w more than p(k,i).
    pub fn next_below_var(self, k: Pair, i: u16) -> Var
        requires { (0 < k.0) × (k.0 ≤ 500) × (i ≤ 7) }
        ensures { result.0 ≡ next_below_var self k.0 i }
    {
        Var(self.w + self.below_var(k, i).0)
    }

    // V, the number of variables with k pairs.
    pub fn var_count(self, k: u16) -> u16
        requires { k ≤ 500 }
        ensures { result ≡ var_count self k }
    {
        self.n + 2 * self.m + 2 * self.n * self.w + 2 * k * self.w
    }
}
