// Filling out a proposed set of atoms (document 01, "Check and filling out").
#![tactic(auto)]

ghost use Rattle.std.specs.Prelude.{◌≡◌, length};
ghost use Rattle.call_results.specs.Results.{called};
ghost use Rattle.call_fill_rows.specs.FillOut.{FillGives, fill_result, fill_call};
ghost use Rattle.clause_cells.specs.Held.{table_code};

use call_fill_found::{fill_founded, first_bad};
use call_fill_rows::FillVerdict;
use call_table::load;
use clause_cells::Table;
use clause_tables::CELLS;
use level_lists::AtomBytes;
use refusals::FillRefusal;

// Rows 8, 17 and 18, for the table of a program; if none is met, the assignment and the levels are written.
// Kept as parameters: the buffers are lent one by one by the open call (document 01).
fn fill_in(table: Table<'_>, set: &[u8], assignment: &mut [u8], levels: &mut [u8]) -> FillVerdict
    ensures { FillGives (table_code table.entry)
        (fill_result (table_code table.entry) set.now (length assignment.old) (length levels.old)) result
        assignment.old assignment.new levels.old levels.new }
{
    let t = table.totals();
    if assignment.len() < t.vars {
        return Err(FillRefusal::ShortBuffer(t.vars));
    }
    let s = t.sizes;
    let n = usize::from(s.n);
    if levels.len() < n {
        return Err(FillRefusal::ShortBuffer(n));
    }
    if set.len() != n {
        return Err(FillRefusal::BadSet(n));
    }
    if let Some(i) = first_bad(set) {
        return Err(FillRefusal::BadSet(i));
    }
    let atoms = AtomBytes { table, bytes: set };
    fill_founded(atoms, assignment, levels)
}

// Whether the set, one byte for each atom, is a stable model: how many atoms are true, and the highest level; its assignment and its levels are written.
// A refusal writes nothing. Bytes past V and n stay.
// Kept as parameters: those of the open call (document 01).
pub fn fill_out(text: &[u8], set: &[u8], assignment: &mut [u8], levels: &mut [u8]) -> FillVerdict
    ensures { called result assignment.new levels.new
        ≡ fill_call text.now set.now assignment.old levels.old }
{
    let mut cells = [0u16; CELLS];
    load(text, &mut cells)?;
    let table = Table { cells: &cells };
    fill_in(table, set, assignment, levels)
}
