// The check of a solver answer against a program (document 01, "Check and filling out"; document 02, Q-3).
#![tactic(auto)]

ghost use Rattle.std.specs.Prelude.{◌≡◌, length};
ghost use Rattle.call_results.specs.Results.{called};
ghost use Rattle.call_check_rows.specs.Check.{CheckGives, check_result, check_call};
ghost use Rattle.clause_cells.specs.Held.{table_code};

use answer_values::read_form;
use call_check_judge::assigned;
use call_check_rows::CheckVerdict;
use call_table::load;
use clause_cells::Table;
use clause_tables::CELLS;
use reader::MAX_TEXT;
use refusals::CheckRefusal;
use truth_literals::ValuedTable;

// The check against the program of a table: rows 8 and 10 to 16. The answer has `total` bytes; of one that is not overlong, `answer` is all. Its
// values are read into an array of the call's own, of the largest V, since refusal 11 writes nothing.
pub fn check_in(
    table: Table<'_>,
    answer: &[u8],
    total: usize,
    assignment: &mut [u8],
    levels: &mut [u8],
) -> CheckVerdict
    ensures { CheckGives (table_code table.entry)
        (check_result (table_code table.entry) answer.now total (length assignment.old) (length levels.old)) result
        assignment.old assignment.new levels.old levels.new }
{
    let t = table.totals();
    if assignment.len() < t.vars {
        return Err(CheckRefusal::ShortBuffer(t.vars));
    }
    let s = t.sizes;
    let n = usize::from(s.n);
    if levels.len() < n {
        return Err(CheckRefusal::ShortBuffer(n));
    }
    if MAX_TEXT < total {
        return Err(CheckRefusal::OverlongAnswer(total));
    }
    let mut array = [2u8; 9890];
    let values = &mut array[..t.vars];
    let read = read_form(answer, values);
    read.form?;
    let valued = ValuedTable { table, values };
    assigned(valued, read.values, assignment, levels)
}

// Whether the answer shows a stable model of the program: how many atoms are true, the highest level, and how many variables were left out and read as
// false; the assignment and the levels are written. Refusals 13, 14 and 16 zero the assignment; the others write nothing. Bytes past V and n stay.
// Kept as parameters: those of the open call (document 01).
pub fn check(text: &[u8], answer: &[u8], assignment: &mut [u8], levels: &mut [u8]) -> CheckVerdict
    ensures { called result assignment.new levels.new
        ≡ check_call text.now answer.now assignment.old levels.old }
{
    let mut cells = [0u16; CELLS];
    load(text, &mut cells)?;
    let table = Table { cells: &cells };
    check_in(table, answer, answer.len(), assignment, levels)
}
