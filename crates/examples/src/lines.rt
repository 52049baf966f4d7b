// Calls for one line of a clause file, and for a run of lines.
use crate::fields::number;
use crate::hex::decode;
use crate::replies::{print_accepted, print_buffer, print_line_end, print_refused};
use call_lines::{line, run};

// Prints the answer for line j, and the buffer.
fn say_line_reply(text: &[u8], j: usize, place: usize, buf: &mut [u8]) {
    match line(text, j, place, &mut *buf) {
        Ok(length) => print_accepted(&[length]),
        Err(r) => print_refused(r),
    }
    print_buffer(buf);
    print_line_end();
}

// Prints the answer for the lines from line j on, and the buffer.
fn say_run_reply(text: &[u8], j: usize, buf: &mut [u8]) {
    match run(text, j, &mut *buf) {
        Ok(written) => print_accepted(&[written.lines, written.bytes]),
        Err(r) => print_refused(r),
    }
    print_buffer(buf);
    print_line_end();
}

// Prints what a line of a .line file gives, nothing for one that is not of its form.
pub fn say_line(given: &[u8]) -> Option<()> {
    let mut fields = given.split(|b| *b == b' ');
    let mut text = [0u8; 70000];
    let n = decode(fields.next()?, &mut text)?;
    let j = number(fields.next()?)?;
    let place = number(fields.next()?)?;
    let mut buf = io::large_buffer();
    let m = decode(fields.next()?, &mut buf)?;
    if fields.next().is_some() {
        return None;
    }
    say_line_reply(&text[..n], j, place, &mut buf[..m]);
    Some(())
}

// Prints what a line of a .run file gives, nothing for one that is not of its form.
pub fn say_run(given: &[u8]) -> Option<()> {
    let mut fields = given.split(|b| *b == b' ');
    let mut text = [0u8; 70000];
    let n = decode(fields.next()?, &mut text)?;
    let j = number(fields.next()?)?;
    let mut buf = io::large_buffer();
    let m = decode(fields.next()?, &mut buf)?;
    if fields.next().is_some() {
        return None;
    }
    say_run_reply(&text[..n], j, &mut buf[..m]);
    Some(())
}
