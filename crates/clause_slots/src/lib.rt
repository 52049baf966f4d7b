// The literal in a slot of a clause, from the clause's place in the walk, in all groups but the chains' (document 01, "Clauses, in order").
#![tactic(auto)]

ghost use Rattle.std.specs.Prelude.{pred, ◌+◌, ◌-◌, ◌≤◌, ◌<◌, ◌≡◌, length};
ghost use Rattle.encoding.specs.Literal.{literal_number, var, −◌};
ghost use Rattle.encoding.specs.Variables.{body_var, founds_var, below_var, next_below_var};
ghost use Rattle.clause_walk.specs.Walk.{slot3, slots4, slot4, size6, slots6, slot6};
ghost use Rattle.clause_walk.specs.Walk.{atom_at, slots1, slot1, implied_slot, of_head, two, three};
ghost use Rattle.clause_slots.specs.SlotNumber.{slot_number, rule_var, is_founds};

use clause_literals::{Sizes, literal, negated, of_three, of_two, with_sign};
use numbers::{Atom, Pair, Rule, Var};
use program::head;

// Group 3, atom a: slot l of clause y.
pub fn zero_slot(s: Sizes, a: Atom, y: u16, l: u16) -> i32
    requires { (0 < a.0) × (a.0 ≤ 126) × (y ≤ 7) }
    ensures { result ≡ literal_number (slot3 s a.0 y l) }
{
    of_two(literal(Var::from(a)), negated(s.level_var(a, y)), l)
}

// Group 4, atom a: slot l of clause y of block i.
pub fn next_slot(s: Sizes, a: Atom, i: u16, y: u16, l: u16) -> i32
    requires { (0 < a.0) × (a.0 ≤ 126) × (i ≤ 7) × (0 < y) × (y ≤ 14) × (l ≤ 8) }
    ensures { result ≡ literal_number (slot4 s a.0 i y l) }
{
    let j = (y - 1) / 2 + 1;
    let second = y % 2 == 0;
    let u = s.next_var(a, i);
    let v = s.level_var(a, i);
    if j < i {
        of_three(
            literal(s.level_var(a, j)),
            with_sign(second, u),
            with_sign(!second, v),
            l,
        )
    } else if l < i {
        negated(s.level_var(a, l))
    } else {
        with_sign(second, if l == i { u } else { v })
    }
}

// Group 6, rule r: slot l of its long clause, where k pairs stand before those of r.
fn founded_slot(s: Sizes, r: Rule, k: u16, l: u16) -> i32
    requires { (r.0 ≤ 500) × (0 < l) × (k + l ≤ 502) }
    ensures { result
        ≡ literal_number (three (var (founds_var s r.0)) (− body_var s r.0) (− below_var s (k + (l - 2)) s.w) l) }
{
    let w = s.w;
    match l {
        1 => literal(s.founds_var(r)),
        2 => negated(s.body_var(r)),
        _ => negated(s.below_var(Pair(k + (l - 2)), w)),
    }
}

// Group 6, rule r with pairs: slot l of its last clause, where k pairs stand before those of r.
fn lowest_slot(s: Sizes, r: Rule, k: u16, l: u16) -> i32
    requires { (r.0 ≤ 500) × (0 < l) × (k + l ≤ 501) }
    ensures { result ≡ literal_number (two (− body_var s r.0) (− next_below_var s (k + pred l) s.w) l) }
{
    let w = s.w;
    match l {
        1 => negated(s.body_var(r)),
        _ => negated(s.next_below_var(Pair(k + (l - 1)), w)),
    }
}

// Group 6, rule r with head h and b pairs after k others: slot l of clause y.
pub fn rule_slot(s: Sizes, r: Rule, h: Atom, k: u16, b: u16, y: u16, l: u16) -> i32
    requires { (r.0 ≤ 500) × (0 < h.0) × (h.0 ≤ 126) × (k + b ≤ 500) × (0 < y) × (y ≤ size6 s.w b) × (0 < l) × (l ≤ slots6 b y) }
    ensures { result ≡ literal_number (slot6 s r.0 h.0 k b y l) }
{
    let w = s.w;
    if y <= b + 1 {
        let implied = match y {
            1 => s.body_var(r),
            _ => s.below_var(Pair(k + (y - 1)), w),
        };
        of_two(negated(s.founds_var(r)), literal(implied), l)
    } else if y == b + 2 {
        founded_slot(s, r, k, l)
    } else if b == 0 {
        of_two(
            negated(s.body_var(r)),
            with_sign(y == 3, s.level_var(h, y - 2)),
            l,
        )
    } else {
        lowest_slot(s, r, k, l)
    }
}

// Body atom x of a rule, from 1, as a variable.
fn atom_at(body: &[u16], x: u16) -> Var
    requires { (0 < x) × (x ≤ length body.now) }
    ensures { result.0 ≡ atom_at body.now x }
{
    Var::from(Atom(body[usize::from(x) - 1]))
}

// Group 1, rule r with the body atoms `body`, the first p of them positive: slot l of clause y.
pub fn body_slot(s: Sizes, r: Rule, body: &[u16], p: u16, y: u16, l: u16) -> i32
    requires { (r.0 ≤ 500) × (0 < y) × (0 < l) × (l ≤ slots1 (length body.now) y) }
    ensures { result ≡ literal_number (slot1 s r.0 body.now p y l) }
{
    let t = s.body_var(r);
    if usize::from(y) <= body.len() {
        match l {
            1 => negated(t),
            _ => with_sign(y <= p, atom_at(body, y)),
        }
    } else {
        match l {
            1 => literal(t),
            _ => with_sign(p < l - 1, atom_at(body, l - 1)),
        }
    }
}

// Group 2, atom a and its rule r: slot l of their clause.
pub fn implied_slot(s: Sizes, a: Atom, r: Rule, l: u16) -> i32
    requires { r.0 ≤ 500 }
    ensures { result ≡ literal_number (implied_slot s a.0 r.0 l) }
{
    of_two(literal(Var::from(a)), negated(s.body_var(r)), l)
}

// Which variable of a rule r: t(r), its body is true, in group 2, or s(r), it founds its head, in group 7.
#[derive(Clone, Copy)]
pub enum RuleVar {
    Body,
    Founds,
}

impl RuleVar {
    // That variable of rule r.
    pub fn of(self, s: Sizes, r: Rule) -> Var
        requires { r.0 ≤ 500 }
        ensures { result.0 ≡ rule_var s (is_founds self) r.0 }
    {
        match self {
            RuleVar::Body => s.body_var(r),
            RuleVar::Founds => s.founds_var(r),
        }
    }
}

// Groups 2 and 7, atom a: slot l of its last clause, the negated a, or the variable x of rule l - 1 if a is its head.
pub fn head_slot(s: Sizes, heads: &[u16], a: Atom, x: RuleVar, l: u16) -> Option<i32>
    requires { (length heads.now ≤ 500) × (0 < l) × (l ≤ length heads.now + 1) }
    ensures { result ≡ slot_number (of_head heads.now a.0 (rule_var s (is_founds x)) l) }
{
    if l == 1 {
        return Some(negated(Var::from(a)));
    }
    let r = Rule(l - 1);
    if head(heads, r) == a {
        Some(literal(x.of(s, r)))
    } else {
        None
    }
}

// Group 1: how many slots clause y of a rule with b body atoms has.
pub fn body_slots(b: u16, y: u16) -> u16
    requires { b ≤ 500 }
    ensures { result ≡ slots1 b y }
{
    if y <= b { 2 } else { b + 1 }
}

// Group 4: how many slots clause y of block i has.
pub fn next_slots(i: u16, y: u16) -> u16
    requires { (i ≤ 7) × (0 < y) }
    ensures { result ≡ slots4 i y }
{
    if (y - 1) / 2 + 1 < i { 3 } else { i + 1 }
}

// Group 6: how many clauses a rule with b pairs has, and how many slots its clause y has.
pub fn rule_size(w: u16, b: u16) -> u16
    requires { (w ≤ 7) × (b ≤ 500) }
    ensures { result ≡ size6 w b }
{
    match b {
        0 => w + 2,
        _ => b + 3,
    }
}

pub fn rule_slots(b: u16, y: u16) -> u16
    requires { b ≤ 500 }
    ensures { result ≡ slots6 b y }
{
    if y <= b + 1 {
        2
    } else if y == b + 2 {
        b + 2
    } else if b == 0 {
        2
    } else {
        b + 1
    }
}
