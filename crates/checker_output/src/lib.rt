// The checker: reads a program text and a solver answer from two files and prints the model that the answer shows, or why none is shown (document 01,
// "Programs"; document 02, Q-3).
#![tactic(auto)]

ghost use Rattle.std.specs.Prelude.{◌≤◌, ◌≡◌, Err, length};
ghost use Rattle.digits.specs.Bytes.{Wrote};
ghost use Rattle.checker_output.specs.Output.{checker_refusal_line, checked_text, checker_output};
ghost use Rattle.clause_cells.specs.Held.{table_code};

use call_check::check_in;
use call_check_rows::CheckVerdict;
use call_table::load_counted;
use checker_model::ModelBytes;
use clause_cells::Table;
use clause_tables::CELLS;
use files::read_file;
use fixed_lines::put_refusal;
use refusals::{CheckRefusal, Refusal};

// Writes the line of a refusal at the front of the buffer, nothing for a model, and returns how many bytes it has.
fn put_refused(verdict: CheckVerdict, out: &mut [u8]) -> usize
    requires { 35 ≤ length out.old }
    ensures { Wrote (checker_refusal_line verdict) out.old out.new result }
{
    match verdict {
        Ok(_) => 0,
        Err(refusal) => put_refusal(refusal.number(), refusal.spot(), out),
    }
}

// Writes the checker's lines for the program of a table at the front of the buffer and returns how many bytes they are.
fn put_checked<'a>(table: Table<'a>, answer: &'a [u8], total: usize, out: &mut [u8]) -> usize
    requires { 1131 ≤ length out.old }
    ensures { Wrote (checked_text (table_code table.entry) answer.now total) out.old out.new result }
{
    let mut assignment = [0u8; 9890];
    let mut levels = [0u8; 126];
    let s = table.totals().sizes;
    let verdict = check_in(table, answer, total, &mut assignment, &mut levels);
    let Ok(shown) = verdict else {
        return put_refused(verdict, out);
    };
    let n = usize::from(s.n);
    let model = ModelBytes {
        atoms: &assignment[..n],
        levels: &levels[..n],
    };
    model.put_shown_model(shown.assumed, out)
}

// Writes the checker's lines for a program text of `size` bytes and an answer of `total`; of those that are not overlong, `text` and `answer` are all.
pub fn put_output(text: &[u8], size: usize, answer: &[u8], total: usize, out: &mut [u8]) -> usize
    requires { 1131 ≤ length out.old }
    ensures { Wrote (checker_output text.now size answer.now total) out.old out.new result }
{
    let mut cells = [0u16; CELLS];
    match load_counted(text, size, &mut cells) {
        Ok(()) => put_checked(Table { cells: &cells }, answer, total, out),
        Err(refusal) => put_refused(Err(CheckRefusal::Text(refusal)), out),
    }
}

// Reads the two files of those names and prints the lines.
pub fn show_model(rt: &HostRuntime, program: &[u8], answer: &[u8]) {
    let mut text = [0u8; 65537];
    let mut given = [0u8; 65537];
    let t = read_file(rt, program, &mut text);
    let a = read_file(rt, answer, &mut given);
    let n = t.kept;
    let k = a.kept;
    let mut out = [0u8; 1131];
    let z = put_output(&text[..n], t.total, &given[..k], a.total, &mut out);
    io::write_all(1, &out[..z]);
}
