// One line of the clause file, and a run of lines (document 01, "Clauses, in order").
#![tactic(auto)]

ghost use Rattle.std.specs.Prelude.{◌-◌, ◌≡◌, length};
ghost use Rattle.clause_runs.specs.Lines.{code_run_bytes};
ghost use Rattle.call_lines_rows.specs.Lines.{answer_in, line_bytes_in, run_answer_in, answered, line_call, run_call};
ghost use Rattle.clause_cells.specs.Held.{table_code};

use call_lines_rows::{LineVerdict, Run, RunVerdict};
use call_table::load;
use clause_cells::Table;
use clause_finding::place_of;
use clause_places::TableLine;
use clause_runs::{line_length, put_line, put_lines};
use clause_tables::CELLS;
use refusals::LineRefusal;

// Line j into the buffer from place `from` on.
fn line_in(table: Table<'_>, j: usize, from: usize, buf: &mut [u8]) -> LineVerdict
    ensures { (result ≡ answer_in (table_code table.entry) j (length buf.old - from))
        × (buf.new ≡ line_bytes_in (table_code table.entry) j from buf.old) }
{
    let t = table.totals();
    if t.clauses < j {
        return Err(LineRefusal::NoSuchClause(t.clauses));
    }
    let line = TableLine {
        table,
        place: place_of(table, j),
    };
    let need = line_length(line);
    if buf.len().saturating_sub(from) < need {
        return Err(LineRefusal::ShortBuffer(need));
    }
    Ok(put_line(line, &mut buf[from..]))
}

// The lines from line j on, as many as fit the buffer.
fn run_in(table: Table<'_>, j: usize, buf: &mut [u8]) -> RunVerdict
    ensures { (result ≡ run_answer_in (table_code table.entry) j (length buf.old))
        × (buf.new ≡ code_run_bytes (table_code table.entry) j buf.old) }
{
    let t = table.totals();
    if t.clauses < j {
        return Err(LineRefusal::NoSuchClause(t.clauses));
    }
    let place = place_of(table, j);
    let part = put_lines(table, place, &mut *buf);
    if part.lines == 0 {
        let line = TableLine { table, place };
        return Err(LineRefusal::ShortBuffer(line_length(line)));
    }
    Ok(Run {
        lines: part.lines,
        bytes: part.bytes,
    })
}

// Line j of the text's clause file, written into the buffer from place `from` on: its length, or a refusal, which writes nothing.
// The buffer's other bytes stay.
pub fn line(text: &[u8], j: usize, from: usize, buf: &mut [u8]) -> LineVerdict
    ensures { answered result buf.new ≡ line_call text.now j from buf.old }
{
    let mut cells = [0u16; CELLS];
    load(text, &mut cells)?;
    let table = Table { cells: &cells };
    line_in(table, j, from, &mut *buf)
}

// As many whole lines as fit the buffer, from line j on: how many and how many bytes, or a refusal, which writes nothing.
// The buffer's other bytes stay.
// Kept as parameters: those of the open call (document 01).
pub fn run(text: &[u8], j: usize, buf: &mut [u8]) -> RunVerdict
    ensures { answered result buf.new ≡ run_call text.now j buf.old }
{
    let mut cells = [0u16; CELLS];
    load(text, &mut cells)?;
    let table = Table { cells: &cells };
    run_in(table, j, &mut *buf)
}
