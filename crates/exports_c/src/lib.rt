// The archive for C, Rust and other languages (include/quadrensolo.h): each function is that of `exports`, under its C name.
// Kept beside `exports`: C calls these names.
#![tactic(auto)]

ghost use Rattle.std.specs.Prelude.{◌≡◌};
ghost use Rattle.call_lines_rows.specs.Lines.{answered};
ghost use Rattle.call_results.specs.Results.{called};
ghost use Rattle.exports.specs.Replies.{read_reply, line_replied, run_replied, check_replied, fill_replied};

use call_replies::Reply;

// Reads a program text: V and C.
#[unsafe(no_mangle)]
pub extern "C" fn qs_read(text: &[u8]) -> Reply
    ensures { result ≡ read_reply text.now }
{
    exports::qs_read(text)
}

// Line j of the text's clause file, written into the buffer from `place` on: its length.
#[unsafe(no_mangle)]
pub extern "C" fn qs_line(text: &[u8], j: usize, place: usize, buf: &mut [u8]) -> Reply
    ensures { answered result buf.new ≡ line_replied text.now j place buf.old }
{
    exports::qs_line(text, j, place, &mut *buf)
}

// As many whole lines as fit the buffer, from line j on: how many lines, and how many bytes.
#[unsafe(no_mangle)]
pub extern "C" fn qs_run(text: &[u8], j: usize, buf: &mut [u8]) -> Reply
    ensures { answered result buf.new ≡ run_replied text.now j buf.old }
{
    exports::qs_run(text, j, &mut *buf)
}

// The check of a solver answer: how many atoms are true, the highest level, and how many variables the answer left out.
#[unsafe(no_mangle)]
pub extern "C" fn qs_check(
    text: &[u8],
    answer: &[u8],
    assignment: &mut [u8],
    levels: &mut [u8],
) -> Reply
    ensures { called result assignment.new levels.new
        ≡ check_replied text.now answer.now assignment.old levels.old }
{
    exports::qs_check(text, answer, &mut *assignment, &mut *levels)
}

// Filling out a proposed set of atoms: how many atoms are true, and the highest level.
#[unsafe(no_mangle)]
pub extern "C" fn qs_fill(
    text: &[u8],
    set: &[u8],
    assignment: &mut [u8],
    levels: &mut [u8],
) -> Reply
    ensures { called result assignment.new levels.new
        ≡ fill_replied text.now set.now assignment.old levels.old }
{
    exports::qs_fill(text, set, &mut *assignment, &mut *levels)
}
