// The lines with fixed words, written into a lent buffer: the first line of the clause file and the line of a refusal (document 01, "Clauses, in order").
#![tactic(auto)]

ghost use Rattle.std.specs.Prelude.{◌^◌, ◌<◌, ◌≡◌, [], ◌∷◌, ◌++◌, length};
ghost use Rattle.lists.specs.Ascii.{ascii};
ghost use Rattle.text.specs.Decimal.{decimal};
ghost use Rattle.digits.specs.Bytes.{Room, Wrote};
ghost use Rattle.fixed_lines.specs.Lines.{header_text, refused_text};

pub use digits::put_word;
use digits::{decimal_length, put_decimal, put_number};

// Writes the bytes `word`, n in decimal and the byte `end` at the front of the buffer and returns how many bytes they are.
fn put_named(word: &[u8], n: usize, end: u8, buf: &mut [u8]) -> usize
    requires { Room (word.now ++ (decimal n ++ (end ∷ []))) buf.old }
    ensures { Wrote (word.now ++ (decimal n ++ (end ∷ []))) buf.old buf.new result }
{
    let to = put_word(word, &mut *buf);
    to + put_number(n, end, &mut buf[to..])
}

// Writes n in decimal, ")" and byte 10 at the front of the buffer and returns how many bytes they are.
#[tactic(auto, unfolding(lists::specs::Ascii::ascii))]
pub fn put_closing(n: usize, buf: &mut [u8]) -> usize
    requires { Room (decimal n ++ ascii ")\n") buf.old }
    ensures { Wrote (decimal n ++ ascii ")\n") buf.old buf.new result }
{
    let to = put_decimal(n, &mut *buf);
    to + put_word(b")\n", &mut buf[to..])
}

// Writes "(refused NUMBER SPOT)" and byte 10 at the front of the buffer and returns how many bytes they are.
#[tactic(auto, unfolding(crate::specs::Lines::refused_text, lists::specs::Ascii::ascii))]
pub fn put_refusal(number: u8, spot: usize, buf: &mut [u8]) -> usize
    requires { Room (refused_text number spot) buf.old }
    ensures { Wrote (refused_text number spot) buf.old buf.new result }
{
    let to = put_named(b"(refused ", usize::from(number), b' ', &mut *buf);
    to + put_closing(spot, &mut buf[to..])
}

// How many bytes the first line has, "p cnf V C" and byte 10.
pub fn header_length(v: usize, c: usize) -> usize
    requires { (v < 2 ^ 32) × (c < 2 ^ 32) }
    ensures { result ≡ length (header_text v c) }
{
    decimal_length(v) + decimal_length(c) + 8
}

// Writes the first line at the front of the buffer and returns how many bytes it has.
#[tactic(auto, unfolding(crate::specs::Lines::header_text, lists::specs::Ascii::ascii))]
pub fn put_header(v: usize, c: usize, buf: &mut [u8]) -> usize
    requires { (v < 2 ^ 32) × (c < 2 ^ 32) × (Room (header_text v c) buf.old) }
    ensures { Wrote (header_text v c) buf.old buf.new result }
{
    let to = put_named(b"p cnf ", v, b' ', &mut *buf);
    to + put_number(c, b'\n', &mut buf[to..])
}
