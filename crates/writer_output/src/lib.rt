// The writer: reads a program text and prints its clause file, or why the text is refused (document 01, "Programs"). What is printed is handed to the
// output in parts; each function that hands over returns how many bytes it handed.
#![tactic(auto)]

ghost use Rattle.std.specs.Prelude.{◌≤◌, ◌≡◌, length};
ghost use Rattle.lists.specs.Lists.{joined};
ghost use Rattle.refusals.specs.Numbers.{text_number, text_spot};
ghost use Rattle.clause_tables.specs.Tables.{clauses_in};
ghost use Rattle.fixed_lines.specs.Lines.{refused_text};
ghost use Rattle.clause_runs.specs.Lines.{code_lines};
ghost use Rattle.writer_output.specs.Output.{writer_refusal_line, writer_output, Stands, PartPut};
ghost use Rattle.clause_cells.specs.Held.{table_code};

use call_table::load_counted;
use clause_cells::Table;
use clause_places::{Place, start};
use clause_runs::{RunPart, put_lines};
use clause_tables::CELLS;
use files::read_open;
use fixed_lines::put_refusal;
use refusals::{Refusal, TextRefusal};

// Hands over the line of a refusal.
fn say_refusal(x: TextRefusal) -> usize
    ensures { result ≡ length (refused_text (text_number x) (text_spot x)) }
{
    let mut out = [0u8; 64];
    let n = put_refusal(x.number(), x.spot(), &mut out);
    io::write_all(1, &out[..n]);
    n
}

// Hands over the line of a refusal, and nothing for an accepted text.
fn say_refused(verdict: Result<(), TextRefusal>) -> usize
    ensures { result ≡ length (writer_refusal_line verdict) }
{
    match verdict {
        Ok(()) => 0,
        Err(refusal) => say_refusal(refusal),
    }
}

// The place before the first clause.
fn first_place(table: Table<'_>) -> Place
    ensures { Stands (table_code table.entry) result 0 }
{
    start(table)
}

// Puts the lines from place c on at the front of the buffer, as many as fit. `said` bytes of the clause file stand before them.
fn next_part(table: Table<'_>, c: Place, said: usize, out: &mut [u8]) -> RunPart
    requires { (Stands (table_code table) c said) × (c.number ≤ clauses_in table.cells.now) × (3008 ≤ length out.old) × (length out.old ≤ 65536) }
    ensures { PartPut (table_code table.entry) c said out.old result out.new }
{
    put_lines(table, c, out)
}

// Hands over all lines of the program of a table, part after part.
fn say_lines(table: Table<'_>) -> usize
    ensures { result ≡ length (joined (code_lines (table_code table.entry))) }
{
    let t = table.totals();
    let mut out = io::large_buffer();
    let mut c = first_place(table);
    let mut said: usize = 0;
    while c.number <= t.clauses {
        let part = next_part(table, c, said, &mut out);
        io::write_all(1, &out[..part.bytes]);
        c = part.place;
        said += part.bytes;
    }
    said
}

// Hands over the output for the program text that begins with `front` and has `total` bytes; of a text that is not overlong, `front` is all.
pub fn say_output(front: &[u8], total: usize) -> usize
    ensures { result ≡ length (writer_output front.now total) }
{
    let mut cells = [0u16; CELLS];
    let verdict = load_counted(front, total, &mut cells);
    let Ok(()) = verdict else {
        return say_refused(verdict);
    };
    say_lines(Table { cells: &cells })
}

// Reads a program text from an open file and prints the output.
pub fn write_clauses(fd: i32) {
    let mut text = [0u8; 65537];
    let f = read_open(fd, &mut text);
    let n = f.kept;
    say_output(&text[..n], f.total);
}
