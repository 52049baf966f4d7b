// Truth of clauses under an assignment (document 01, "Check and filling out").
#![tactic(auto)]

ghost use Rattle.std.specs.Prelude.{◌≤◌, ◌<◌, ◌≡◌, length};
ghost use Rattle.numbers.specs.Nonzero.{nonzero};
ghost use Rattle.encoding.specs.Literal.{clause_true};
ghost use Rattle.clause_walk.specs.Walk.{group_count};
ghost use Rattle.clause_tables.specs.Tables.{totals_in, vars_in, clauses_in};
ghost use Rattle.clause_layout.specs.Clauses.{literals_of};
ghost use Rattle.truth_literals.specs.Valued.{valued_code, valued_in};
ghost use Rattle.truth_clauses.specs.Truth.{value_in, first_false_item, code_true, code_first_false};
ghost use Rattle.truth_clauses.specs.Standing.{Standing, FalseItem};
ghost use Rattle.clause_cells.specs.Held.{table_code};

use clause_counts::clauses_before;
use clause_finding::place_of;
use clause_iter::Literals;
use clause_layout::{GROUPS, TableClause, items};
use clause_places::{Place, TableLine};
use truth_items::item_holds;
use truth_literals::{ValuedTable, holds};

// Whether a clause is true.
fn clause_holds(c: TableClause<'_>, values: &[u8]) -> bool
    requires { vars_in c.block.table.cells.now ≤ length values.now }
    ensures { result ≡ clause_true (value_in values.now) (literals_of c.entry) }
{
    Literals::of(c).any(|x| holds(x, values))
}

// Whether the clause of a line is true.
fn line_holds(line: TableLine<'_>, values: &[u8]) -> bool
    requires { (0 < line.place.number) × (vars_in line.table.cells.now ≤ length values.now) }
    ensures { result ≡ code_true (table_code line.entry.table) values.now line.entry.place.number }
{
    clause_holds(line.clause(), values)
}

// Whether written clause j, from 1, is true (document 02, Q-2).
pub fn clause_true(valued: ValuedTable<'_>, j: usize) -> bool
    requires { (0 < j) × (j ≤ clauses_in valued.table.cells.now) }
    ensures { result ≡ code_true (valued_code valued.entry) valued.entry.values.now j }
{
    let line = TableLine {
        table: valued.table,
        place: place_of(valued.table, j),
    };
    line_holds(line, valued.values)
}

// The first clause that is false, from a place with all clauses before it true.
fn false_from(valued: ValuedTable<'_>, c: Place) -> Option<usize>
    requires { Standing (valued_code valued) (totals_in valued.table.cells.now) valued.values.now c }
    ensures { result ≡ nonzero (code_first_false (valued_code valued.entry) valued.entry.values.now) }
{
    let t = valued.table.totals();
    let mut at = c;
    while at.number <= t.clauses {
        let line = TableLine {
            table: valued.table,
            place: at,
        };
        if !line_holds(line, valued.values) {
            return Some(at.number);
        }
        at = line.next();
    }
    None
}

// The first clause that is false: one of item a of group g, where all clauses before that item are true.
fn false_in(valued: ValuedTable<'_>, g: u16, a: u16) -> Option<usize>
    requires { FalseItem (valued_code valued) (valued_in valued) g a }
    ensures { result ≡ nonzero (code_first_false (valued_code valued.entry) valued.entry.values.now) }
{
    let j = clauses_before(valued.table, g, a - 1) + 1;
    false_from(valued, place_of(valued.table, j))
}

// The first item of group g that has a false clause.
fn false_item(valued: ValuedTable<'_>, g: u16) -> Option<u16>
    requires { (0 < g) × (g ≤ group_count) }
    ensures { result ≡ nonzero (first_false_item (valued_code valued.entry) (valued_in valued.entry) g) }
{
    for a in 0..items(valued.table.totals(), g) {
        if !item_holds(valued, g, a + 1) {
            return Some(a + 1);
        }
    }
    None
}

// The first clause that is false: item by item, each item's clauses together.
pub fn first_false(valued: ValuedTable<'_>) -> Option<usize>
    ensures { result ≡ nonzero (code_first_false (valued_code valued.entry) valued.entry.values.now) }
{
    for g in 0..GROUPS {
        if let Some(a) = false_item(valued, g + 1) {
            return false_in(valued, g + 1, a);
        }
    }
    None
}
