// The walk of the clause list by its numbers: how many items, blocks, clauses and slots there are, and the literal in a slot.
#![tactic(auto)]

ghost use Rattle.std.specs.Prelude.{◌+◌, ◌-◌, ◌≤◌, ◌<◌, ◌≡◌, take, drop};
ghost use Rattle.encoding.specs.Literal.{literal_number};
ghost use Rattle.clause_slots.specs.SlotNumber.{slot_number, rule_var, is_founds};
ghost use Rattle.std.proofs.Props.{props};
ghost use Rattle.clause_walk.specs.Walk.{slots1, slot1, of_head, size as size_at};
ghost use Rattle.clause_tables.specs.Tables.{code_in, totals_in, heads_in, bodies_in, starts_in};
ghost use Rattle.clause_walk.specs.Walk.{BlockAt, At};
ghost use Rattle.clause_layout.specs.BlockChain.{chain_of_block};
ghost use Rattle.clause_layout.specs.Numbers.{items_of, blocks_of, implied_size, start_at};
ghost use Rattle.clause_cells.specs.Held.{table_code};

use clause_cells::Table;
use clause_chains::{Chain, chain_bit, chain_literal, chain_of, chain_size, chain_slots};
use clause_literals::Sizes;
use clause_slots::{
    RuleVar, body_slot, body_slots, head_slot, implied_slot, next_slot, next_slots, rule_size,
    rule_slot, rule_slots, zero_slot,
};
use clause_tables::Totals;
use numbers::{Atom, Pair, Rule};

// How many groups of clauses there are.
// Kept as numbers: a group is a number from 1 to 7 in document 01's order, and the walk counts through the groups and sums over those before one.
pub const GROUPS: u16 = 7;

// How many items group g has, and how many blocks each of them has.
pub fn items(t: Totals, g: u16) -> u16
    ensures { result ≡ items_of t g }
{
    let s = t.sizes;
    match g {
        1 | 6 => s.m,
        5 => t.pairs,
        _ => s.n,
    }
}

pub fn block_count(s: Sizes, g: u16) -> u16
    ensures { result ≡ blocks_of s g }
{
    match g {
        2 => s.m + 1,
        4 => s.w,
        5 => s.w + s.w,
        _ => 1,
    }
}

// How many body atoms rule r has before start k.
pub fn span(table: Table<'_>, r: Rule, k: u16) -> u16
    requires { (0 < r.0) × (r.0 ≤ 500) × (k ≤ 2) × (start_at (starts_in table.cells.now) r.0 0 ≤ start_at (starts_in table.cells.now) r.0 k) }
    ensures { result ≡ start_at (starts_in table.entry.cells.now) r.0 k - start_at (starts_in table.entry.cells.now) r.0 0 }
{
    table.list_start(r, k) - table.list_start(r, 0)
}

// Group 1, rule r, whose lists begin at `first` and `middle` and end at `end`: slot l of clause y.
fn body_part(table: Table<'_>, first: u16, middle: u16, end: u16, r: Rule, y: u16, l: u16) -> i32
    requires { (r.0 ≤ 500) × (first ≤ middle) × (first ≤ end) × (end ≤ 500) × (0 < y) × (0 < l) × (l ≤ slots1 (end - first) y) }
    ensures { result
        ≡ literal_number (slot1 (totals_in table.entry.cells.now).sizes r.0 (take (end - first) (drop first (bodies_in table.entry.cells.now)))
        (middle - first) y l) }
{
    body_slot(
        table.totals().sizes,
        r,
        table.body(first, end),
        middle - first,
        y,
        l,
    )
}

// Groups 2 and 7, atom a: slot l of its last clause, which names the variable x of its rules.
fn heads_part(table: Table<'_>, s: Sizes, a: Atom, x: RuleVar, l: u16) -> Option<i32>
    requires { (0 < l) × (l ≤ s.m + 1) }
    ensures { result ≡ slot_number (of_head (take s.m (heads_in table.entry.cells.now)) a.0 (rule_var s (is_founds x)) l) }
{
    let m = s.m;
    head_slot(s, table.heads(m), a, x, l)
}

// Group 2, atom a: how many clauses block i has.
fn implied_size(table: Table<'_>, m: u16, a: Atom, i: u16) -> u16
    requires { (m ≤ 500) × (0 < i) }
    ensures { result ≡ implied_size m (heads_in table.entry.cells.now) a.0 i }
{
    u16::from(m < i || table.head(Rule(i)) == a)
}

// Block `number` of an item of a group, in the walk over the clauses of a table.
#[derive(Clone, Copy)]
pub struct TableBlock<'a> {
    pub table: Table<'a>,
    pub group: u16,
    pub item: u16,
    pub number: u16,
    pub ghost stands: { BlockAt (code_in table.cells.now) group item number } by { Prim.hlevel props },
}

impl<'a> TableBlock<'a> {
    // How many clauses it has.
    pub fn size(self) -> u16
        ensures { result ≡ size_at (table_code self.entry.table) self.entry.group self.entry.item self.entry.number }
    {
        let table = self.table;
        let s = table.totals().sizes;
        match self.group {
            1 => span(table, Rule(self.item), 2) + 1,
            2 => implied_size(table, s.m, Atom(self.item), self.number),
            3 => s.w,
            4 => 2 * self.number,
            5 => chain_size(chain_bit(s.w, self.number)),
            6 => rule_size(s.w, span(table, Rule(self.item), 1)),
            _ => 1,
        }
    }

    // The variables of a chain's bit, for a block of a pair.
    pub fn chain(self) -> Chain
        requires { self.group ≡ 5 }
        ensures { result ≡ chain_of_block (table_code self.entry.table) self.entry.item self.entry.number }
    {
        let k = Pair(self.item);
        let t = self.table.totals();
        let b = self.table.pair_body(k);
        let h = self.table.pair_head(k);
        chain_of(t.sizes, k, b, h, self.number)
    }
}

// Clause `number` of a block.
#[derive(Clone, Copy)]
pub struct TableClause<'a> {
    pub block: TableBlock<'a>,
    pub number: u16,
    pub ghost stands: { At (code_in block.table.cells.now) block.group block.item block.number number } by { Prim.hlevel props },
}

impl<'a> TableClause<'a> {
    ghost use Rattle.clause_layout.specs.Clauses.{slots_in, slot_in};

    // How many slots it has.
    pub fn slots(self) -> u16
        ensures { result ≡ slots_in self.entry }
    {
        let table = self.block.table;
        let s = table.totals().sizes;
        let i = self.block.number;
        let r = Rule(self.block.item);
        match self.block.group {
            1 => body_slots(span(table, r, 2), self.number),
            2 if s.m < i => s.m + 1,
            2 => 2,
            3 => 2,
            4 => next_slots(i, self.number),
            5 => chain_slots(chain_bit(s.w, i), self.number),
            6 => rule_slots(span(table, r, 1), self.number),
            _ => s.m + 1,
        }
    }

    // The literal in slot l, if it has one.
    pub fn slot(self, l: u16) -> Option<i32>
        requires { (0 < l) × (l ≤ slots_in self) }
        ensures { result ≡ slot_number (slot_in self.entry l) }
    {
        let table = self.block.table;
        let s = table.totals().sizes;
        let a = Atom(self.block.item);
        let r = Rule(self.block.item);
        let i = self.block.number;
        let y = self.number;
        match self.block.group {
            1 => {
                let first = table.list_start(r, 0);
                let middle = table.list_start(r, 1);
                let end = table.list_start(r, 2);
                Some(body_part(table, first, middle, end, r, y, l))
            }
            2 if s.m < i => heads_part(table, s, a, RuleVar::Body, l),
            2 => Some(implied_slot(s, a, Rule(i), l)),
            3 => Some(zero_slot(s, a, y, l)),
            4 => Some(next_slot(s, a, i, y, l)),
            5 => Some(chain_literal(self.block.chain(), chain_bit(s.w, i), y, l)),
            6 => {
                let b = span(table, r, 1);
                Some(rule_slot(s, r, table.head(r), table.pairs_before(r), b, y, l))
            }
            _ => heads_part(table, s, a, RuleVar::Founds, l),
        }
    }
}
