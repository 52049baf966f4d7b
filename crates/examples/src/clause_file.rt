// Whole clause files, run by run.
ghost use Rattle.std.specs.Prelude.{◌≤◌, length};

use crate::replies::{print_line_end, print_number, print_refused};
use crate::sum::{EMPTY_SUM, with_bytes};
use call_lines::run;
use call_lines_rows::Run;

// What is written of a clause file: its lines and bytes so far, their sum, and how many bytes the last run has.
#[derive(Clone, Copy)]
struct Written {
    lines: usize,
    bytes: usize,
    sum: u64,
    last: usize,
}

// What is written with one run more, which stands at the front of buf.
fn with_run(w: Written, r: Run, buf: &[u8]) -> Written {
    let n = r.bytes.min(buf.len());
    Written {
        lines: w.lines.wrapping_add(r.lines),
        bytes: w.bytes.wrapping_add(n),
        sum: with_bytes(w.sum, &buf[..n]),
        last: n,
    }
}

// Writes all lines by way of buf, which keeps the last run; 1,000 runs at most.
fn write_all_lines(text: &[u8], buf: &mut [u8]) -> Written {
    let mut w = Written {
        lines: 0,
        bytes: 0,
        sum: EMPTY_SUM,
        last: 0,
    };
    for _ in 0..1000 {
        let Ok(r) = run(text, w.lines, &mut *buf) else {
            return w;
        };
        w = with_run(w, r, buf);
    }
    w
}

// The first line of s, without its byte 10.
fn first_line(s: &[u8]) -> &[u8] {
    s.split(|b| *b == b'\n').next().unwrap_or(s)
}

// The last line of s, with its byte 10.
fn last_line(s: &[u8]) -> &[u8] {
    let mut last = s;
    for line in s.split_inclusive(|b| *b == b'\n') {
        last = line;
    }
    last
}

// Prints how many lines and bytes are written, and their sum.
fn say_written(w: Written) {
    print_number(w.lines);
    io::write_all(1, b" ");
    print_number(w.bytes);
    io::write_all(1, b" ");
    io::print_decimal(1, w.sum);
    print_line_end();
}

// Prints line 0, which stands at the front of buf, the numbers of the whole clause file, and its last line.
fn say_clause_file(text: &[u8], buf: &mut [u8]) {
    io::write_all(1, first_line(buf));
    print_line_end();
    let w = write_all_lines(text, &mut *buf);
    say_written(w);
    let n = w.last.min(buf.len());
    io::write_all(1, last_line(&buf[..n]));
}

// Prints what a program text gives.
pub fn say_program(text: &[u8]) {
    let mut buf = io::large_buffer();
    match run(text, 0, &mut buf) {
        Ok(_) => say_clause_file(text, &mut buf),
        Err(r) => {
            print_refused(r);
            print_line_end();
        }
    }
}
