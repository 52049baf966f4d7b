// The place of clause j, found by passing whole groups, items and blocks.
#![tactic(auto)]

ghost use Rattle.std.specs.Prelude.{ℕ, ◌≤◌, ◌<◌, ◌≡◌, false};
ghost use Rattle.lists.specs.Lists.{sum};
ghost use Rattle.clause_walk.specs.Walk.{group_count, item_count, block_count, size, BlockAt};
ghost use Rattle.clause_tables.specs.Tables.{clauses_in};
ghost use Rattle.clause_places.specs.Places.{coordinates, place_at};
ghost use Rattle.clause_finding.specs.Falls.{SizesBy, Falls};
ghost use Rattle.clause_counts.specs.Counts.{item_size, group_size, is_fixed};
ghost use Rattle.clause_cells.specs.Held.{table_code};

use clause_cells::Table;
use clause_counts::{atoms_size, fixed_size, group_size, is_fixed};
use clause_layout::{GROUPS, TableBlock, TableClause, block_count, items};
use clause_places::{Coordinates, Place, start};
use numbers::Atom;

// The last group but one.
const LAST_BUT_ONE: u16 = GROUPS - 1;

// A part, from 1, of several that follow one another, and how many clauses of that part stand before the one looked for.
#[derive(Clone, Copy)]
pub struct PartFound {
    pub number: u16,
    pub left: usize,
}

// Of n parts, of which part k has size(k) clauses, the one with the clause after `left` others.
fn find_part<F: Fn(u16) -> usize>(n: u16, left: usize, size: F) -> PartFound
    requires { (k : ℕ) → 0 < k → k < n → F.pre size k }
    ensures { (f : ℕ → ℕ) → SizesBy n f (λ k x. F.post size k x) → left < sum n f → Falls n f left result }
{
    let mut at = left;
    for k in 1..n {
        let clauses = size(k);
        if at < clauses {
            return PartFound {
                number: k,
                left: at,
            };
        }
        at -= clauses;
    }
    PartFound {
        number: n,
        left: at,
    }
}

// The group with the clause after `left` others.
fn find_group(table: Table<'_>, left: usize) -> PartFound
    requires { left < clauses_in table.cells.now }
    ensures { Falls group_count (group_size (table_code table.entry)) left result }
{
    let t = table.totals();
    let s = t.sizes;
    let last = t.clauses - usize::from(s.n);
    if last <= left {
        return PartFound {
            number: GROUPS,
            left: left - last,
        };
    }
    find_part(LAST_BUT_ONE, left, |g| group_size(table, g))
}

// Group 2: the atom with the clause after `left` others of the group, by binary search: how many clauses the first atoms have is counted when it is asked.
fn find_atom(table: Table<'_>, left: usize) -> PartFound
    requires { left < group_size (table_code table) 2 }
    ensures { Falls (item_count (table_code table.entry) 2) (item_size (table_code table.entry) 2) left result }
{
    let s = table.totals().sizes;
    let m = s.m;
    let mut low: u16 = 0;
    let mut high = s.n;
    while low + 1 < high {
        let middle = (low + high) / 2;
        if left < atoms_size(table, m, Atom(middle)) {
            high = middle;
        } else {
            low = middle;
        }
    }
    PartFound {
        number: high,
        left: left - atoms_size(table, m, Atom(low)),
    }
}

// How many clauses block i of item a of group g has.
fn block_size(table: Table<'_>, g: u16, a: u16, i: u16) -> usize
    requires { BlockAt (table_code table) g a i }
    ensures { result ≡ size (table_code table.entry) g a i }
{
    let block = TableBlock {
        table,
        group: g,
        item: a,
        number: i,
    };
    usize::from(block.size())
}

// The rule of group 1 or 6 with the clause after `left` others of the group.
fn find_rule(table: Table<'_>, g: u16, left: usize) -> PartFound
    requires { (0 < g) × (g ≤ group_count) × (is_fixed g ≡ false) × (g ≡ 2 → ⊥) × (left < group_size (table_code table) g) }
    ensures { Falls (item_count (table_code table.entry) g) (item_size (table_code table.entry) g) left result }
{
    find_part(
        items(table.totals(), g),
        left,
        |a| block_size(table, g, a, 1),
    )
}

// The item of group g with the clause after `left` others of the group. Items of one size are passed by a division.
fn find_item(table: Table<'_>, g: u16, left: usize) -> PartFound
    requires { (0 < g) × (g ≤ group_count) × (left < group_size (table_code table) g) }
    ensures { Falls (item_count (table_code table.entry) g) (item_size (table_code table.entry) g) left result }
{
    if is_fixed(g) {
        let s = table.totals().sizes;
        let k = fixed_size(usize::from(s.w), g);
        let q = left / k;
        return PartFound {
            number: q as u16 + 1,
            left: left % k,
        };
    }
    if g == 2 {
        return find_atom(table, left);
    }
    find_rule(table, g, left)
}

// The block of item a of group g with the clause after `left` others of the item.
// Kept as a group's and an item's number: `PartFound` gives numbers, one for each search.
fn find_block(table: Table<'_>, g: u16, a: u16, left: usize) -> PartFound
    requires { (0 < g) × (g ≤ group_count) × (0 < a) × (a ≤ item_count (table_code table) g) × (left < item_size (table_code table) g a) }
    ensures { Falls (block_count (table_code table.entry) g) (size (table_code table.entry) g a) left result }
{
    let t = table.totals();
    find_part(
        block_count(t.sizes, g),
        left,
        |i| block_size(table, g, a, i),
    )
}

// Where a clause stands.
fn coordinates_of(c: TableClause<'_>) -> Coordinates
    ensures { result ≡ coordinates (table_code c.entry.block.table) c.entry.block.group c.entry.block.item c.entry.block.number c.entry.number }
{
    let b = c.block;
    let t = b.table.totals();
    Coordinates {
        group: b.group,
        item: b.item,
        block: b.number,
        clause: c.number,
        clauses: b.size() - c.number,
        blocks: block_count(t.sizes, b.group) - b.number,
        items: items(t, b.group) - b.item,
    }
}

// The place of line j.
pub fn place_of(table: Table<'_>, j: usize) -> Place
    requires { j ≤ clauses_in table.cells.now }
    ensures { result ≡ place_at (table_code table.entry) j }
{
    if j == 0 {
        return start(table);
    }
    let g = find_group(table, j - 1);
    let a = find_item(table, g.number, g.left);
    let i = find_block(table, g.number, a.number, a.left);
    let block = TableBlock {
        table,
        group: g.number,
        item: a.number,
        number: i.number,
    };
    let clause = TableClause {
        block,
        number: i.left as u16 + 1,
    };
    Place {
        number: j,
        coordinates: coordinates_of(clause),
    }
}
