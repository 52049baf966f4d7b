// Makes the table of a program, once for each text, or its totals alone (document 01, "Variables" and "Clauses, in order"). Of the table only the cells in
// use are written.
#![tactic(auto)]

ghost use Rattle.std.specs.Prelude.{◌+◌, ◌*◌, ◌^◌, ◌≤◌, ◌<◌, ◌≡◌, length, replicate};
ghost use Rattle.std.proofs.lemmas.List.Edits.{sets};
ghost use Rattle.encoding.specs.Code.{code_of};
ghost use Rattle.program.specs.Arrays.{list_in, decoded};
ghost use Rattle.clause_tables.specs.Tables.{Stored, totals_of, table_of};
ghost use Rattle.clause_tabling.specs.Formula.{clauses_for, tallied, counts_of};
ghost use Rattle.clause_tabling.specs.Stages.{StoredStarts, StartTotals, counted, tally_of, copied, with_arrays, with_pairs};

use clause_links::add_links;
use clause_literals::{Sizes, width_of};
use clause_tables::{
    BEFORE_AT, BODIES_AT, CELLS, HEADS_AT, OWNERS_AT, PARTNERS_AT, STARTS_AT, Totals,
};
use program::Program;

// How many pairs some rules have, and how many of these rules have no positive body atom.
#[derive(Clone, Copy)]
struct Tally {
    pairs: u16,
    empty: u16,
}

impl Tally {
    // Counts one more rule, which has `size` positive body atoms.
    fn count(&mut self, size: usize)
        requires { (self.old.pairs + size ≤ 500) × (self.old.empty ≤ 500) }
        ensures { self.new ≡ counted self.old size }
    {
        self.pairs += size as u16;
        self.empty += u16::from(size == 0);
    }
}

// Writes these numbers into the cells from `at` on.
// Kept as a loop: with copy_from_slice `prepare` took 53 ns in place of 11 for a program of one fact, and 4.4 us in place of 2.0 for 500 rules.
fn copy(from: &[u16], at: usize, table: &mut [u16; CELLS])
    requires { at + length from.now ≤ 4144 }
    ensures { table.new ≡ sets table.old at from.now }
{
    for (i, x) in from.iter().enumerate() {
        table[at + i] = *x;
    }
}

// Writes the pairs of one rule behind `at` others: its positive body atoms, each with head h.
fn store(positive: &[u16], h: u16, at: usize, table: &mut [u16; CELLS])
    requires { at + length positive.now ≤ 500 }
    ensures { table.new
        ≡ sets (sets table.old (1517 + at) positive.now) (2017 + at) (replicate (length positive.now) h) }
{
    copy(positive, PARTNERS_AT + at, &mut *table);
    table[OWNERS_AT + at..OWNERS_AT + at + positive.len()].fill(h);
}

// Writes the heads, body atoms and list starts of a program.
fn copy_arrays(p: &Program, table: &mut [u16; CELLS])
    requires { (p.now.rules ≤ 500) × (p.now.held ≤ 500) }
    ensures { table.new ≡ copied table.old p.now }
{
    let rules = usize::from(p.rules);
    copy(&p.heads[..rules], HEADS_AT, &mut *table);
    copy(&p.bodies[..usize::from(p.held)], BODIES_AT, &mut *table);
    copy(&p.starts[..2 * rules + 1], STARTS_AT, &mut *table);
}

// The positive body atoms of the rule with r rules before it.
fn positive(p: &Program, r: usize) -> &[u16]
    requires { (Stored p.now) × (r < p.now.rules) }
    ensures { result.now ≡ list_in p.now (2 * r) }
{
    &p.bodies[usize::from(p.starts[2 * r])..usize::from(p.starts[2 * r + 1])]
}

// C, of n atoms, m rules, counters of w bits, o body atoms, k pairs and e rules with no positive body atom.
fn clause_count(n: u16, m: u16, w: u16, o: u16, k: u16, e: u16) -> u16
    requires { (n ≤ 126) × (m ≤ 500) × (0 < w) × (w ≤ 7) × (o ≤ 500) × (k ≤ 500) × (e ≤ m) }
    ensures { result ≡ clauses_for n m w o k e }
{
    o + 5 * m - e + w * e + 2 * n + n * w * (w + 2) + k * (12 * w - 5)
}

// The sizes, K, V and C, of n atoms, m rules and `held` body atoms, from the tally of all rules.
fn totals_from(n: u16, m: u16, held: u16, all: Tally) -> Totals
    requires { (n ≤ 126) × (m ≤ 500) × (held ≤ 500) × (all.pairs ≤ 500) × (all.empty ≤ m) }
    ensures is { result ≡ tallied n m held all }
    ensures fits { (result.vars < 2 ^ 16) × (result.clauses < 2 ^ 16) }
{
    let sizes = Sizes {
        n,
        m,
        w: width_of(n),
    };
    let c = clause_count(n, m, sizes.w, held, all.pairs, all.empty);
    Totals {
        sizes,
        pairs: all.pairs,
        vars: usize::from(sizes.var_count(all.pairs)),
        clauses: usize::from(c),
    }
}

// Writes the counts.
fn put_totals(t: Totals, table: &mut [u16; CELLS])
    requires { (t.vars < 2 ^ 16) × (t.clauses < 2 ^ 16) }
    ensures { table.new ≡ sets table.old 0 (counts_of t) }
{
    let s = t.sizes;
    copy(
        &[s.n, s.m, s.w, t.pairs, t.vars as u16, t.clauses as u16],
        0,
        &mut *table,
    );
}

// Writes the pairs of a program, and how many there are before each rule and in all, where the arrays stand. Tells the tally of all rules.
fn add_pairs(p: &Program, table: &mut [u16; CELLS]) -> Tally
    requires { (Stored p.now) × (table.old ≡ with_arrays p.now) }
    ensures { (table.new ≡ with_pairs p.now) × (result ≡ tally_of (decoded p.now)) }
{
    let rules = usize::from(p.rules);
    let mut tally = Tally { pairs: 0, empty: 0 };
    for r in 0..rules {
        table[BEFORE_AT + r] = tally.pairs;
        let body = positive(p, r);
        store(body, p.heads[r], usize::from(tally.pairs), &mut *table);
        tally.count(body.len());
    }
    table[BEFORE_AT + rules] = tally.pairs;
    tally
}

// Makes the table of a program that was read, in cells that are all 0.
pub fn prepare(p: &Program, table: &mut [u16; CELLS])
    requires { (Stored p.now) × (table.old ≡ replicate 4144 0) }
    ensures { table.new ≡ table_of (code_of (decoded p.now)) }
{
    copy_arrays(p, &mut *table);
    let all = add_pairs(p, &mut *table);
    put_totals(totals_from(p.atoms, p.rules, p.held, all), &mut *table);
    let heads = &p.heads[..usize::from(p.rules)];
    add_links(heads, &mut *table);
}

// The sizes, K, V and C of a program that was read, from its counts and list starts, with no table.
pub fn totals_of(n: u16, m: u16, held: u16, starts: &[u16]) -> Totals
    requires { StoredStarts n m held starts.now }
    ensures { StartTotals n m held starts.now result }
{
    let mut all = Tally { pairs: 0, empty: 0 };
    for r in 0..usize::from(m) {
        all.count(usize::from(starts[2 * r + 1] - starts[2 * r]));
    }
    totals_from(n, m, held, all)
}

// The same from the program.
pub fn program_totals(p: &Program) -> Totals
    requires { Stored p.now }
    ensures { result ≡ totals_of (code_of (decoded p.now)) }
{
    totals_of(p.atoms, p.rules, p.held, &p.starts)
}
