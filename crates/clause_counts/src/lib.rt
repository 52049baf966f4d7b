// How many clauses groups have, their items, and those before an item (document 01, "Clauses, in order").
#![tactic(auto)]

ghost use Rattle.std.specs.Prelude.{pred, ◌+◌, ◌*◌, ◌≤◌, ◌<◌, ◌≡◌, false, length, get_or};
ghost use Rattle.lists.specs.Lists.{sum};
ghost use Rattle.clause_walk.specs.Walk.{group_count, item_count};
ghost use Rattle.clause_tables.specs.Tables.{heads_in, starts_in};
ghost use Rattle.clause_counts.specs.Counts.{item_size, group_size, low_count, is_fixed, fixed_size};
ghost use Rattle.clause_cells.specs.Held.{table_code};

use clause_cells::Table;
use clause_layout::{GROUPS, TableBlock, items};
use numbers::{Atom, Rule};

// Whether the items of group g have one size.
pub fn is_fixed(g: u16) -> bool
    ensures { result ≡ is_fixed g }
{
    !matches!(g, 1 | 2 | 6)
}

// How many clauses each item of group 3, 4, 5 or 7 has.
pub fn fixed_size(w: usize, g: u16) -> usize
    requires { (0 < w) × (w ≤ 7) }
    ensures { result ≡ fixed_size w g }
{
    match g {
        3 => w,
        4 => w * (w + 1),
        5 => 12 * w - 6,
        _ => 1,
    }
}

// How many heads are at most a.
fn low_count(heads: &[u16], a: Atom) -> u16
    requires { length heads.now ≤ 500 }
    ensures { result ≡ low_count (length heads.now) heads.now a.0 }
{
    let mut n: u16 = 0;
    for h in heads {
        if *h <= a.0 {
            n += 1;
        }
    }
    n
}

// Group 2: how many clauses atoms 1 to a have.
pub fn atoms_size(table: Table<'_>, m: u16, a: Atom) -> usize
    requires { m ≤ 500 }
    ensures { result ≡ low_count m (heads_in table.entry.cells.now) a.0 + a.0 }
{
    usize::from(low_count(table.heads(m), a)) + usize::from(a.0)
}

// Group 1: how many clauses its m rules have, from where the body atoms of the last rule end.
fn bodies_size(table: Table<'_>, m: u16) -> usize
    requires { m ≤ 500 }
    ensures { result ≡ get_or (starts_in table.entry.cells.now) (2 * m) 0 + m }
{
    usize::from(table.list_start(Rule(m + 1), 0)) + usize::from(m)
}

// How many clauses group g has, from 1 to 5.
// Kept as bounds of a group's number: groups are counted through and summed over, and a type for 1 to 7 would be made anew at each count.
pub fn group_size(table: Table<'_>, g: u16) -> usize
    requires { (0 < g) × (g ≤ 5) }
    ensures { result ≡ group_size (table_code table.entry) g }
{
    let t = table.totals();
    let s = t.sizes;
    match g {
        1 => bodies_size(table, s.m),
        2 => usize::from(s.m) + usize::from(s.n),
        _ => usize::from(items(t, g)) * fixed_size(usize::from(s.w), g),
    }
}

// How many clauses rules 1 to a have in group 1 or 6.
// Kept with a as a number: it counts the items that are done, from 0, so it is no item; the same in the functions that follow.
fn rules_size(table: Table<'_>, g: u16, a: u16) -> usize
    requires { (0 < g) × (g ≤ group_count) × (is_fixed g ≡ false) × (g ≡ 2 → ⊥) × (a ≤ item_count (table_code table) g) }
    ensures { result ≡ sum a (item_size (table_code table.entry) g) }
{
    let mut n: usize = 0;
    for r in 0..a {
        let block = TableBlock {
            table,
            group: g,
            item: r + 1,
            number: 1,
        };
        n += usize::from(block.size());
    }
    n
}

// How many clauses items 1 to a of group g have.
fn items_size(table: Table<'_>, g: u16, a: u16) -> usize
    requires { (0 < g) × (g ≤ group_count) × (a ≤ item_count (table_code table) g) }
    ensures { result ≡ sum a (item_size (table_code table.entry) g) }
{
    let s = table.totals().sizes;
    if is_fixed(g) {
        return usize::from(a) * fixed_size(usize::from(s.w), g);
    }
    if g == 2 {
        return atoms_size(table, s.m, Atom(a));
    }
    rules_size(table, g, a)
}

// How many clauses the groups before group g have.
fn groups_size(table: Table<'_>, g: u16) -> usize
    requires { (0 < g) × (g ≤ group_count) }
    ensures { result ≡ sum (pred g) (group_size (table_code table.entry)) }
{
    let t = table.totals();
    if g == GROUPS {
        let s = t.sizes;
        return t.clauses - usize::from(s.n);
    }
    let mut n: usize = 0;
    for h in 1..g {
        n += group_size(table, h);
    }
    n
}

// How many clauses stand before those of the item after a others of group g.
pub fn clauses_before(table: Table<'_>, g: u16, a: u16) -> usize
    requires { (0 < g) × (g ≤ group_count) × (a ≤ item_count (table_code table) g) }
    ensures { result ≡ sum (pred g) (group_size (table_code table.entry)) + sum a (item_size (table_code table.entry) g) }
{
    groups_size(table, g) + items_size(table, g, a)
}
