// Runs the checker on pairs of files that the arguments name, PROGRAM ANSWER, each output below a line with the two names. A file that cannot be opened
// reads as no bytes.
#![tactic(auto)]

use checker_output::show_model;
use files::argument;

// Prints the two names, and the output.
fn say_run(rt: &HostRuntime, program: &[u8], answer: &[u8]) {
    io::write_all(1, program);
    io::write_all(1, b" ");
    io::write_all(1, answer);
    io::write_all(1, b"\n");
    show_model(rt, program, answer);
}

fn main(rt: HostRuntime) {
    for i in 0..usize::MAX / 2 {
        let mut program = io::buffer();
        let Some(n) = argument(&rt, i + i + 1, &mut program) else {
            return;
        };
        let mut answer = io::buffer();
        let m = argument(&rt, i + i + 2, &mut answer).unwrap_or(0);
        say_run(&rt, &program[..n], &answer[..m]);
    }
}
