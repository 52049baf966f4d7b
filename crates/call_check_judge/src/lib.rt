// The check of values that an answer gave: rows 13, 14 and 16, and what an accepted one writes (document 01, "Check and filling out").
#![tactic(auto)]

ghost use Rattle.std.specs.Prelude.{◌≤◌, ◌≡◌, length, take, replicate, Err};
ghost use Rattle.encoding.specs.Code.{variables_of};
ghost use Rattle.clause_tables.specs.Tables.{atoms_in, vars_in};
ghost use Rattle.truth_literals.specs.Valued.{valued_code};
ghost use Rattle.answer_bytes.specs.Bytes.{completed};
ghost use Rattle.call_check_rows.specs.Check.{CheckGives, values_judged, read_judged};
ghost use Rattle.clause_cells.specs.Held.{table_code};

use answer_bytes::copy_completed;
use answer_values::ValuesRead;
use call_check_rows::{CheckVerdict, Shown};
use call_results::{highest_of, put_counters, true_count};
use clause_cells::Table;
use refusals::CheckRefusal;
use truth_clauses::first_false;
use truth_literals::ValuedTable;

// Refuses with r and zeros the values.
fn refuse_zeroed(r: CheckRefusal, values: &mut [u8]) -> CheckVerdict
    ensures { (result ≡ Err r) × (values.new ≡ replicate (length values.old) 0) }
{
    values.fill(0);
    Err(r)
}

// Row 16, for the values that stand in the assignment, `assumed` of which are assumed.
// Kept as facts about the two lent buffers: it writes both, and a struct that holds `&mut` would be taken apart for each call.
fn judge(table: Table<'_>, assumed: usize, assignment: &mut [u8], levels: &mut [u8]) -> CheckVerdict
    requires { (vars_in table.cells.now ≤ length assignment.old) × (atoms_in table.cells.now ≤ length levels.old) }
    ensures { CheckGives (table_code table.entry)
        (values_judged (table_code table.entry) assumed (take (variables_of (table_code table.entry)) assignment.old)) result
        assignment.old assignment.new levels.old levels.new }
{
    let t = table.totals();
    let valued = ValuedTable {
        table,
        values: assignment,
    };
    if let Some(j) = first_false(valued) {
        return refuse_zeroed(CheckRefusal::FalseClause(j), &mut assignment[..t.vars]);
    }
    let s = t.sizes;
    let n = usize::from(s.n);
    put_counters(s, assignment, levels);
    Ok(Shown {
        atoms: true_count(&assignment[..n]),
        highest: highest_of(&levels[..n]),
        assumed,
    })
}

// Rows 13 and 14, by how the literals of the answer were assigned, then row 16, for the values that they gave, completed.
pub fn assigned(
    valued: ValuedTable<'_>,
    read: ValuesRead,
    assignment: &mut [u8],
    levels: &mut [u8],
) -> CheckVerdict
    requires { (vars_in valued.table.cells.now ≤ length assignment.old) × (atoms_in valued.table.cells.now ≤ length levels.old) }
    ensures { CheckGives (valued_code valued.entry)
        (read_judged (valued_code valued.entry) read
        (completed (take (variables_of (valued_code valued.entry)) valued.entry.values.now))) result assignment.old
        assignment.new levels.old levels.new }
{
    let v = valued.table.totals().vars;
    match read {
        Ok(assumed) => {
            copy_completed(&valued.values[..v], &mut assignment[..v]);
            judge(valued.table, assumed, assignment, levels)
        }
        Err(fault) => refuse_zeroed(CheckRefusal::from(fault), &mut assignment[..v]),
    }
}
