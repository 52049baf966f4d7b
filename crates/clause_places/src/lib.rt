// The walk of the clause list from clause to clause.
#![tactic(auto)]

ghost use Rattle.std.specs.Prelude.{suc, pred, ◌+◌, ◌≤◌, ◌<◌, ◌≡◌, false, [], get_or};
ghost use Rattle.encoding.specs.Code.{clauses_of};
ghost use Rattle.std.proofs.Props.{props};
ghost use Rattle.clause_tables.specs.Tables.{code_in, clauses_in, heads_in};
ghost use Rattle.clause_layout.specs.Clauses.{literals_of};
ghost use Rattle.clause_places.specs.Places.{place_at};
ghost use Rattle.clause_places.specs.Ahead.{ahead, first_of, In, is_over, head_block, Onward};
ghost use Rattle.clause_cells.specs.Held.{table_code};

use clause_cells::Table;
use clause_heads::next_head;
use clause_layout::{GROUPS, TableBlock, TableClause, block_count, items};
use numbers::Atom;

// The number after that of the last group.
// Kept as a group's number: a place past the last clause is told by its own number, and no code asks for the group of such a place.
const PAST: u16 = GROUPS + 1;

// A clause's group, item, block and number in its block, and how many clauses follow in the block, blocks in the item and items in the group.
#[derive(Clone, Copy)]
pub struct Coordinates {
    pub group: u16,
    pub item: u16,
    pub block: u16,
    pub clause: u16,
    pub clauses: u16,
    pub blocks: u16,
    pub items: u16,
}

// A clause by its number, with its coordinates. Number 0 is before the first clause.
#[derive(Clone, Copy)]
pub struct Place {
    pub number: usize,
    pub coordinates: Coordinates,
}

// Before the first of the `count` items of group g.
fn group_start(g: u16, count: u16) -> Coordinates
    ensures { result ≡ record { group = g; item = 0; block = 0; clause = 0; clauses = 0; blocks = 0; items = count } }
{
    Coordinates {
        group: g,
        item: 0,
        block: 0,
        clause: 0,
        clauses: 0,
        blocks: 0,
        items: count,
    }
}

// Whether no block, item or group follows.
fn is_over(c: Coordinates) -> bool
    ensures { result ≡ is_over c }
{
    c.blocks == 0 && c.items == 0 && GROUPS <= c.group
}

// Group 2: the next block of the item, an atom, that holds a clause: that of the next rule with this head, or the last block.
fn head_block(table: Table<'_>, m: u16, c: Coordinates) -> Coordinates
    requires { (m ≤ 500) × (c.block ≤ m) }
    ensures { result ≡ head_block m (heads_in table.entry.cells.now) c }
{
    let j = next_head(table.heads(m), Atom(c.item), c.block);
    Coordinates {
        block: j + 1,
        clause: 0,
        clauses: 1,
        blocks: m - j,
        ..c
    }
}

// The next block of the item, in group 2 the next one that holds a clause.
// Kept as a fact about coordinates: a step of the search passes through coordinates of no clause, which `TableLine` could not hold.
fn next_block(table: Table<'_>, c: Coordinates) -> Coordinates
    requires { (In (table_code table) c) × (c.clauses ≡ 0) × (0 < c.blocks) }
    ensures { Onward (table_code table.entry) c result }
{
    if c.group == 2 {
        let s = table.totals().sizes;
        return head_block(table, s.m, c);
    }
    let block = TableBlock {
        table,
        group: c.group,
        item: c.item,
        number: c.block + 1,
    };
    Coordinates {
        block: block.number,
        clause: 0,
        clauses: block.size(),
        blocks: c.blocks - 1,
        ..c
    }
}

// The next block of the item, the next item of the group or the next group.
fn step(table: Table<'_>, c: Coordinates) -> Coordinates
    requires { (In (table_code table) c) × (c.clauses ≡ 0) × (is_over c ≡ false) }
    ensures { Onward (table_code table.entry) c result }
{
    if 0 < c.blocks {
        return next_block(table, c);
    }
    let t = table.totals();
    if 0 < c.items {
        return Coordinates {
            item: c.item + 1,
            block: 0,
            clause: 0,
            clauses: 0,
            blocks: block_count(t.sizes, c.group),
            items: c.items - 1,
            ..c
        };
    }
    let g = c.group + 1;
    group_start(g, items(t, g))
}

// The coordinates of the first clause that follows c.
fn next_coordinates(table: Table<'_>, c: Coordinates) -> Coordinates
    requires { In (table_code table) c }
    ensures { result ≡ first_of (ahead (table_code table.entry) c) }
{
    let mut at = c;
    while at.clauses == 0 {
        if is_over(at) {
            return group_start(PAST, 0);
        }
        at = step(table, at);
    }
    Coordinates {
        clause: at.clause + 1,
        clauses: at.clauses - 1,
        ..at
    }
}

// The place before the first clause.
pub fn start(table: Table<'_>) -> Place
    ensures { result ≡ place_at (table_code table.entry) 0 }
{
    let t = table.totals();
    Place {
        number: 0,
        coordinates: group_start(1, items(t, 1)),
    }
}

// A line of the clause file, at its place: line 0, or that of a clause.
#[derive(Clone, Copy)]
pub struct TableLine<'a> {
    pub table: Table<'a>,
    pub place: Place,
    pub ghost stands: { place ≡ place_at (code_in table.cells.now) place.number } by { Prim.hlevel props },
    pub ghost within: { place.number ≤ clauses_in table.cells.now } by { Prim.hlevel props },
}

impl<'a> TableLine<'a> {
    // The clause of a line after line 0.
    pub fn clause(self) -> TableClause<'a>
        requires { 0 < self.place.number }
        ensures { (literals_of result ≡ get_or (clauses_of (table_code self.entry.table)) (pred self.entry.place.number) [])
            × (result.block.table.cells.now ≡ self.entry.table.cells.now) × (result.block.group ≡ self.entry.place.coordinates.group)
            × (result.block.item ≡ self.entry.place.coordinates.item) × (result.block.number ≡ self.entry.place.coordinates.block)
            × (result.number ≡ self.entry.place.coordinates.clause) }
    {
        let c = self.place.coordinates;
        let block = TableBlock {
            table: self.table,
            group: c.group,
            item: c.item,
            number: c.block,
        };
        TableClause {
            block,
            number: c.clause,
        }
    }

    // The place of the clause after it.
    pub fn next(self) -> Place
        ensures { result ≡ place_at (table_code self.entry.table) (suc self.entry.place.number) }
    {
        Place {
            number: self.place.number + 1,
            coordinates: next_coordinates(self.table, self.place.coordinates),
        }
    }
}
