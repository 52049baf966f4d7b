// Runs the library's calls on many inputs and prints what each gives.
//
// Each argument names a file of at most 262,144 bytes, whose kind the ending of its name tells. Most kinds have one call on each line:
//     .read     TEXT                             prints ok
//     .line     TEXT J PLACE BUFFER              prints ok LENGTH BUFFER
//     .run      TEXT J BUFFER                    prints ok LINES BYTES BUFFER
//     .check    TEXT ANSWER ASSIGNMENT LEVELS    prints ok TRUE HIGHEST ASSUMED ASSIGNMENT LEVELS
//     .fill     TEXT SET ASSIGNMENT LEVELS       prints ok TRUE HIGHEST ASSIGNMENT LEVELS
// J and PLACE are decimal numbers below 2^64, the other fields bytes in the form that hex.rt describes. A refused call prints `refused NUMBER SPOT` in
// place of `ok` and its numbers; the buffers printed are those after the call, whole. A line that is not of its form prints `bad case`, and so does one
// with a text, an answer or a set of more than 70,000 bytes, a buffer or an assignment of more than 65,536 or levels of more than 4,096.
//
// A file .lp is a program text: prints line 0 of its clause file, then `LINES BYTES SUM` of the whole file, then its last line; or `refused NUMBER SPOT`.
#![tactic(auto)]

mod clause_file;
mod fields;
mod files;
mod hex;
mod lines;
mod models;
mod reads;
mod replies;
mod sum;

use clause_file::say_program;
use files::read_file;
use lines::{say_line, say_run};
use models::{say_checked, say_filled, say_model};
use reads::say_read;
use std::env::{Env, FillError};

// Prints what a line of the file of that name gives, nothing for one that is not of its form.
fn say_call(name: &[u8], line: &[u8]) -> Option<()> {
    if name.ends_with(b".read") {
        say_read(line)
    } else if name.ends_with(b".line") {
        say_line(line)
    } else if name.ends_with(b".run") {
        say_run(line)
    } else if name.ends_with(b".check") {
        say_model(line, say_checked)
    } else if name.ends_with(b".fill") {
        say_model(line, say_filled)
    } else {
        None
    }
}

// Prints what each line of the file of that name gives.
fn say_calls(name: &[u8], file: &[u8]) {
    for line in file.split_inclusive(|b| *b == b'\n') {
        let line = line.strip_suffix(b"\n").unwrap_or(line);
        if say_call(name, line).is_none() {
            io::write_all(1, b"bad case\n");
        }
    }
}

// Prints what the file of that name gives.
fn say_file(rt: &HostRuntime, name: &[u8]) {
    let mut file = [0u8; 262144];
    let n = read_file(rt, name, &mut file);
    if name.ends_with(b".lp") {
        say_program(&file[..n]);
    } else {
        say_calls(name, &file[..n]);
    }
}

// Prints what the file that argument k names gives, and answers whether there is such an argument. A name that is too long reads as the empty one.
fn say_argument(rt: &HostRuntime, k: usize) -> bool {
    let mut name = io::buffer();
    match rt.arg(k, &mut name) {
        Ok(n) => say_file(rt, &name[..n]),
        Err(FillError::TooLong) => say_file(rt, b""),
        Err(FillError::NotPresent) => return false,
    }
    true
}

fn main(rt: HostRuntime) {
    for k in 1..usize::MAX {
        if !say_argument(&rt, k) {
            return;
        }
    }
}
