// The functions that C, Rust and other languages call: thin, over numbers and byte slices. exports_c exports them to C (include/quadrensolo.h).
#![tactic(auto)]

ghost use Rattle.std.specs.Prelude.{◌≡◌};
ghost use Rattle.call_lines_rows.specs.Lines.{answered};
ghost use Rattle.call_results.specs.Results.{called};
ghost use Rattle.exports.specs.Replies.{read_reply, line_replied, run_replied, check_replied, fill_replied};

use call_check::check;
use call_fill::fill_out;
use call_lines::{line, run};
use call_replies::{Reply, reply_to};
use call_table::read_totals;

// Reads a program text: V and C.
pub fn qs_read(text: &[u8]) -> Reply
    ensures { result ≡ read_reply text.now }
{
    reply_to(read_totals(text))
}

// Line j of the text's clause file, written into the buffer from `place` on: its length.
pub fn qs_line(text: &[u8], j: usize, place: usize, buf: &mut [u8]) -> Reply
    ensures { answered result buf.new ≡ line_replied text.now j place buf.old }
{
    reply_to(line(text, j, place, &mut *buf))
}

// As many whole lines as fit the buffer, from line j on: how many lines, and how many bytes.
pub fn qs_run(text: &[u8], j: usize, buf: &mut [u8]) -> Reply
    ensures { answered result buf.new ≡ run_replied text.now j buf.old }
{
    reply_to(run(text, j, &mut *buf))
}

// The check of a solver answer: how many atoms are true, the highest level, and how many variables the answer left out.
// Kept beside `qs_fill`: both are C's names, with parameters of their own.
pub fn qs_check(text: &[u8], answer: &[u8], assignment: &mut [u8], levels: &mut [u8]) -> Reply
    ensures { called result assignment.new levels.new
        ≡ check_replied text.now answer.now assignment.old levels.old }
{
    reply_to(check(text, answer, &mut *assignment, &mut *levels))
}

// Filling out a proposed set of atoms: how many atoms are true, and the highest level.
pub fn qs_fill(text: &[u8], set: &[u8], assignment: &mut [u8], levels: &mut [u8]) -> Reply
    ensures { called result assignment.new levels.new
        ≡ fill_replied text.now set.now assignment.old levels.old }
{
    reply_to(fill_out(text, set, &mut *assignment, &mut *levels))
}
