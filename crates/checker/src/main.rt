// Reads program.lp and answer.txt in the current folder and prints the model that the answer shows.
#![tactic(auto)]

fn main(rt: HostRuntime) {
    checker_output::show_model(&rt, b"program.lp", b"answer.txt");
}
