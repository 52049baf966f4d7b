// Truth of whole items of groups 1 and 6 under an assignment: the bodies of rules, and the rules (document 01, "Check and filling out").
#![tactic(auto)]

ghost use Rattle.std.specs.Prelude.{◌+◌, ◌≤◌, ◌<◌, ◌≡◌, length};
ghost use Rattle.encoding.specs.Variables.{var_count};
ghost use Rattle.truth_literals.specs.Values.{value_in};
ghost use Rattle.truth_literals.specs.Clauses.{Has};
ghost use Rattle.truth_rules.specs.Rules.{AtomsIn, body_item_true, founds_true, fact_true, bound_true, rule_true};

use clause_literals::Sizes;
use numbers::{Atom, Pair, Rule, Var};
use truth_literals::{implies, stands};

// Group 1, a rule with the variable t of its body and the body atoms `atoms`, the first p of them positive: whether every clause is true.
pub fn body_holds<'a>(t: Var, atoms: &'a [u16], p: usize, assignment: &'a [u8]) -> bool
    requires { (Has assignment.now t.0) × (AtomsIn assignment.now atoms.now) }
    ensures { result ≡ body_item_true (value_in assignment.now) t.0 atoms.now p }
{
    let mut ok = true;
    let mut long = stands(true, t, assignment);
    for (j, a) in atoms.iter().enumerate() {
        let b = Var::from(Atom(*a));
        ok &= implies(t, j < p, b, assignment);
        long |= stands(p <= j, b, assignment);
    }
    ok & long
}

// Group 6, rule r, whose b pairs stand after k others: whether s(r) says that its body is true with every pair's level below.
fn founds_hold(s: Sizes, r: Rule, k: u16, b: u16, assignment: &[u8]) -> bool
    requires { (0 < r.0) × (r.0 ≤ s.m) × (k + b ≤ 500) × (var_count s (k + b) ≤ length assignment.now) }
    ensures { result ≡ founds_true (value_in assignment.now) s r.0 k b }
{
    let w = s.w;
    let f = s.founds_var(r);
    let t = s.body_var(r);
    let mut ok = implies(f, true, t, assignment);
    let mut long = stands(true, f, assignment) | stands(false, t, assignment);
    for j in 0..b {
        let p = s.below_var(Pair(k + (j + 1)), w);
        ok &= implies(f, true, p, assignment);
        long |= stands(false, p, assignment);
    }
    ok & long
}

// Whether a true body without pairs gives the head, h, level 1: its bit j is as bit j of the number 1.
fn fact_holds(s: Sizes, r: Rule, h: Atom, assignment: &[u8]) -> bool
    requires { (0 < r.0) × (r.0 ≤ s.m) × (0 < h.0) × (h.0 ≤ s.n) × (var_count s 0 ≤ length assignment.now) }
    ensures { result ≡ fact_true (value_in assignment.now) s r.0 h.0 }
{
    let w = s.w;
    let t = s.body_var(r);
    let mut ok = true;
    for j in 0..w {
        let v = s.level_var(h, j + 1);
        ok &= implies(t, j == 0, v, assignment);
    }
    ok
}

// Whether a true body leaves some pair's next not below the head.
fn bound_holds(s: Sizes, r: Rule, k: u16, b: u16, assignment: &[u8]) -> bool
    requires { (0 < r.0) × (r.0 ≤ s.m) × (k + b ≤ 500) × (var_count s (k + b) ≤ length assignment.now) }
    ensures { result ≡ bound_true (value_in assignment.now) s r.0 k b }
{
    let w = s.w;
    let mut low = stands(false, s.body_var(r), assignment);
    for j in 0..b {
        let q = s.next_below_var(Pair(k + (j + 1)), w);
        low |= stands(false, q, assignment);
    }
    low
}

// Group 6, rule r with head h and b pairs after k others: whether every clause is true.
pub fn rule_holds(s: Sizes, r: Rule, h: Atom, k: u16, b: u16, assignment: &[u8]) -> bool
    requires { (0 < r.0) × (r.0 ≤ s.m) × (0 < h.0) × (h.0 ≤ s.n) × (k + b ≤ 500)
        × (var_count s (k + b) ≤ length assignment.now) }
    ensures { result ≡ rule_true (value_in assignment.now) s r.0 h.0 k b }
{
    let founds = founds_hold(s, r, k, b, assignment);
    if b == 0 {
        founds & fact_holds(s, r, h, assignment)
    } else {
        founds & bound_holds(s, r, k, b, assignment)
    }
}
