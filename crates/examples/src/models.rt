// Calls of the check and of filling out, which have the same fields.
use crate::hex::decode;
use crate::replies::{print_accepted, print_buffer, print_line_end, print_refused};
use call_check::check;
use call_fill::fill_out;

// Checks an answer and prints the verdict.
pub fn say_checked(text: &[u8], answer: &[u8], assignment: &mut [u8], levels: &mut [u8]) {
    match check(text, answer, &mut *assignment, &mut *levels) {
        Ok(shown) => print_accepted(&[shown.atoms, shown.highest, shown.assumed]),
        Err(r) => print_refused(r),
    }
}

// Fills a set out and prints the verdict.
pub fn say_filled(text: &[u8], set: &[u8], assignment: &mut [u8], levels: &mut [u8]) {
    match fill_out(text, set, &mut *assignment, &mut *levels) {
        Ok(filled) => print_accepted(&[filled.atoms, filled.highest]),
        Err(r) => print_refused(r),
    }
}

// Prints the verdict of `call` and the buffers after it, for what a line of a .check or of a .fill file gives; nothing for one that is not of its form.
pub fn say_model<F: FnOnce(&[u8], &[u8], &mut [u8], &mut [u8])>(line: &[u8], call: F) -> Option<()>
    requires { F.IsAlwaysCallable call }
{
    let mut fields = line.split(|b| *b == b' ');
    let mut text = [0u8; 70000];
    let mut given = [0u8; 70000];
    let mut assignment = io::large_buffer();
    let mut levels = io::buffer();
    let i = decode(fields.next()?, &mut text)?;
    let j = decode(fields.next()?, &mut given)?;
    let k = decode(fields.next()?, &mut assignment)?;
    let n = decode(fields.next()?, &mut levels)?;
    if fields.next().is_some() {
        return None;
    }
    call(
        &text[..i],
        &given[..j],
        &mut assignment[..k],
        &mut levels[..n],
    );
    print_buffer(&assignment[..k]);
    print_buffer(&levels[..n]);
    print_line_end();
    Some(())
}
