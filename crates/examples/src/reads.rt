// Calls of the reader.
use crate::hex::decode;
use crate::replies::{print_accepted, print_line_end, print_refused};
use reader::read;

// Reads a text and prints the verdict.
fn say_verdict(text: &[u8]) {
    match read(text).verdict {
        Ok(()) => print_accepted(&[]),
        Err(r) => print_refused(r),
    }
    print_line_end();
}

// Prints what a line of a .read file gives, nothing for one that is not of its form.
pub fn say_read(given: &[u8]) -> Option<()> {
    let mut text = [0u8; 70000];
    let n = decode(given, &mut text)?;
    say_verdict(&text[..n]);
    Some(())
}
