// Replies as they are printed.
use crate::hex::print_bytes;
use refusals::Refusal;

// Prints a number in decimal.
pub fn print_number(n: usize) {
    io::print_decimal(1, n as u64);
}

// Prints `ok` and the numbers that an accepted call gives.
pub fn print_accepted(numbers: &[usize]) {
    io::write_all(1, b"ok");
    for n in numbers {
        io::write_all(1, b" ");
        print_number(*n);
    }
}

// Prints a refusal's number and spot.
pub fn print_refused<R: Refusal>(r: R) {
    io::write_all(1, b"refused ");
    print_number(usize::from(r.number()));
    io::write_all(1, b" ");
    print_number(r.spot());
}

// Prints a buffer after a space.
pub fn print_buffer(buf: &[u8]) {
    io::write_all(1, b" ");
    print_bytes(buf);
}

pub fn print_line_end() {
    io::write_all(1, b"\n");
}
