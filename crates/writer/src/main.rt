// Reads a program text from standard input and prints its clause file.
#![tactic(auto)]

fn main() {
    writer_output::write_clauses(0);
}
