// The table of a program as a type, and what it says. No other code but the one that makes the table knows where its regions stand.
#![tactic(auto)]

ghost use Rattle.std.specs.Prelude.{◌+◌, ◌-◌, ◌*◌, ◌≤◌, ◌<◌, ◌≡◌, get_or, take, drop};
ghost use Rattle.std.proofs.Props.{props};
ghost use Rattle.numbers.specs.Nonzero.{nonzero};
ghost use Rattle.clause_tables.specs.Tables.{Ready, region, count_in, totals_in, heads_in, bodies_in, before_in, partners_in, owners_in, starts_in, firsts_in, links_in};
ghost use Rattle.clause_cells.specs.Rules.{rule_number};

use clause_literals::Sizes;
use clause_tables::{
    BEFORE_AT, BODIES_AT, FIRSTS_AT, HEADS_AT, LINKS_AT, OWNERS_AT, PARTNERS_AT, STARTS_AT, Totals,
};
use numbers::{Atom, Pair, Rule, nonzero};

// Cells that hold the table of a program, ready to be asked.
#[derive(Clone, Copy)]
pub struct Table<'a> {
    pub cells: &'a [u16],
    pub ghost ready: { Ready cells.now } by { Prim.hlevel props },
}

impl<'a> Table<'a> {
    // The sizes, the number of pairs, V and C.
    pub fn totals(self) -> Totals
        ensures { result ≡ totals_in self.entry.cells.now }
    {
        Totals {
            sizes: Sizes {
                n: self.count(0),
                m: self.count(1),
                w: self.count(2),
            },
            pairs: self.count(3),
            vars: usize::from(self.count(4)),
            clauses: usize::from(self.count(5)),
        }
    }

    // Count i.
    fn count(self, i: u16) -> u16
        requires { i < 16 }
        ensures { result ≡ count_in self.entry.cells.now i }
    {
        self.cell(0, 16, i)
    }

    // Cell i of the region of k cells that begins at cell j.
    fn cell(self, j: usize, k: usize, i: u16) -> u16
        requires { (j + k ≤ 4144) × (i < k) }
        ensures { result ≡ get_or (region j k self.entry.cells.now) i 0 }
    {
        self.cells[j + usize::from(i)]
    }

    // The head of rule r.
    // Kept as bounds: the types of `numbers` are document 01's tuple structs, and `clause_counts` asks about `Atom(0)` and `Rule(m + 1)`.
    pub fn head(self, r: Rule) -> Atom
        requires { (0 < r.0) × (r.0 ≤ 500) }
        ensures { result.0 ≡ get_or (heads_in self.entry.cells.now) (r.0 - 1) 0 }
    {
        Atom(self.cell(HEADS_AT, 500, r.0 - 1))
    }

    // How many pairs stand before those of rule r.
    pub fn pairs_before(self, r: Rule) -> u16
        requires { (0 < r.0) × (r.0 ≤ 501) }
        ensures { result ≡ get_or (before_in self.entry.cells.now) (r.0 - 1) 0 }
    {
        self.cell(BEFORE_AT, 501, r.0 - 1)
    }

    // The body atom of pair k.
    // Kept beside `pair_head` and `head`: each is one call of `cell`, with its own region and its own contract.
    pub fn pair_body(self, k: Pair) -> Atom
        requires { (0 < k.0) × (k.0 ≤ 500) }
        ensures { result.0 ≡ get_or (partners_in self.entry.cells.now) (k.0 - 1) 0 }
    {
        Atom(self.cell(PARTNERS_AT, 500, k.0 - 1))
    }

    // Its head.
    pub fn pair_head(self, k: Pair) -> Atom
        requires { (0 < k.0) × (k.0 ≤ 500) }
        ensures { result.0 ≡ get_or (owners_in self.entry.cells.now) (k.0 - 1) 0 }
    {
        Atom(self.cell(OWNERS_AT, 500, k.0 - 1))
    }

    // Where the lists of rule r begin and end: start 0 is that of B, start 1 that of C, and C ends at start 2.
    pub fn list_start(self, r: Rule, k: u16) -> u16
        requires { (0 < r.0) × (2 * (r.0 - 1) + k ≤ 1000) }
        ensures { result ≡ get_or (starts_in self.entry.cells.now) (2 * (r.0 - 1) + k) 0 }
    {
        self.cell(STARTS_AT, 1001, 2 * (r.0 - 1) + k)
    }

    // The first rule of atom a.
    pub fn first_rule(self, a: Atom) -> Option<Rule>
        requires { (0 < a.0) × (a.0 ≤ 126) }
        ensures { rule_number result ≡ nonzero (get_or (firsts_in self.entry.cells.now) (a.0 - 1) 0) }
    {
        nonzero(self.cell(FIRSTS_AT, 126, a.0 - 1)).map(Rule)
    }

    // The next rule with the head of rule r.
    // Kept beside `first_rule`: each is one call of `cell`, with its own region and its own contract.
    pub fn next_rule(self, r: Rule) -> Option<Rule>
        requires { (0 < r.0) × (r.0 ≤ 500) }
        ensures { rule_number result ≡ nonzero (get_or (links_in self.entry.cells.now) (r.0 - 1) 0) }
    {
        nonzero(self.cell(LINKS_AT, 500, r.0 - 1)).map(Rule)
    }

    // The heads of the first m rules.
    pub fn heads(self, m: u16) -> &'a [u16]
        requires { m ≤ 500 }
        ensures { result.now ≡ take m (heads_in self.entry.cells.now) }
    {
        &self.cells[HEADS_AT..HEADS_AT + usize::from(m)]
    }

    // The body atoms from place `first` to place `end`.
    pub fn body(self, first: u16, end: u16) -> &'a [u16]
        requires { (first ≤ end) × (end ≤ 500) }
        ensures { result.now ≡ take (end - first) (drop first (bodies_in self.entry.cells.now)) }
    {
        &self.cells[BODIES_AT + usize::from(first)..BODIES_AT + usize::from(end)]
    }
}
