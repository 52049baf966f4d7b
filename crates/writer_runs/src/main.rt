// Runs the writer on the files that the arguments name, each output below a line with the file's name. A file that cannot be opened reads as no bytes.
#![tactic(auto)]

use files::argument;
use std::fs::File;
use std::os::fd::AsRawFd;
use writer_output::{say_output, write_clauses};

// Prints the writer's output for the file of that name.
fn say_clauses(rt: &HostRuntime, name: &[u8]) {
    let Ok(path) = str::from_utf8(name) else {
        say_output(b"", 0);
        return;
    };
    match File::open(rt, path) {
        Ok(file) => write_clauses(file.as_raw_fd()),
        Err(_) => {
            say_output(b"", 0);
        }
    }
}

// Prints the name, and the output.
fn say_run(rt: &HostRuntime, name: &[u8]) {
    io::write_all(1, name);
    io::write_all(1, b"\n");
    say_clauses(rt, name);
}

fn main(rt: HostRuntime) {
    for k in 1..usize::MAX {
        let mut name = io::buffer();
        let Some(n) = argument(&rt, k, &mut name) else {
            return;
        };
        say_run(&rt, &name[..n]);
    }
}
