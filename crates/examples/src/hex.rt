// Bytes in text. A field is `-` for no bytes, or one or more items, written without a gap:
//     HH        one byte, in two lowercase hexadecimal digits
//     (HH)N;    that byte N times, N in decimal and at least 1
ghost use Rattle.std.specs.Prelude.{◌+◌, ◌<◌, ◌≤◌, IfSome, length};
ghost use Rattle.io.specs.Counts.{IsPrefixLen};

use crate::fields::number;

// An item of a field: a byte, how often it stands, and what follows the item.
#[derive(Clone, Copy)]
struct Item<'a> {
    byte: u8,
    times: usize,
    rest: &'a [u8],
}

// The value of a hexadecimal digit.
fn digit_value(b: u8) -> Option<u8>
    ensures { IfSome result (λ v. v < 16) }
{
    match b {
        b'0'..=b'9' => Some(b - b'0'),
        b'a'..=b'f' => Some(b - b'a' + 10),
        _ => None,
    }
}

// The byte of two hexadecimal digits.
fn byte_of(high: u8, low: u8) -> Option<u8> {
    let h = digit_value(high)?;
    let l = digit_value(low)?;
    Some(h * 16 + l)
}

// The item at the start of a field, if there is one.
fn first_item(field: &[u8]) -> Option<Item<'_>>
    ensures { IfSome result (λ x. length x.rest.now < length field.now) }
{
    match field {
        [b'(', high, low, b')', rest @ ..] => {
            let end = rest.iter().position(|b| *b == b';')?;
            Some(Item {
                byte: byte_of(*high, *low)?,
                times: number(&rest[..end])?,
                rest: &rest[end + 1..],
            })
        }
        [high, low, rest @ ..] => Some(Item {
            byte: byte_of(*high, *low)?,
            times: 1,
            rest,
        }),
        _ => None,
    }
}

// Puts what a field stands for at the front of `bytes`: how many bytes it is. None says that the field is not of the form, or that it does not fit.
pub fn decode(field: &[u8], bytes: &mut [u8]) -> Option<usize>
    ensures { IfSome result (λ n. IsPrefixLen n bytes.new) }
{
    if field == b"-".as_slice() {
        return Some(0);
    }
    if field.is_empty() {
        return None;
    }
    let mut n = 0;
    let mut left = field;
    while !left.is_empty() {
        let item = first_item(left)?;
        if item.times == 0 || bytes.len() - n < item.times {
            return None;
        }
        bytes[n..n + item.times].fill(item.byte);
        n += item.times;
        left = item.rest;
    }
    Some(n)
}

// The hexadecimal digit of a value below 16.
fn digit(v: u8) -> u8
    requires { v < 16 }
{
    if v < 10 { b'0' + v } else { b'a' + (v - 10) }
}

// Puts the two digits of each byte of s at the front of `out`, and answers how many digits they are.
fn put_digits(s: &[u8], out: &mut [u8]) -> usize
    requires { length s.now + length s.now ≤ length out.old }
    ensures { IsPrefixLen result out.new }
{
    for (i, b) in s.iter().enumerate() {
        out[2 * i] = digit(*b / 16);
        out[2 * i + 1] = digit(*b % 16);
    }
    2 * s.len()
}

// Prints the digits of at most 2,048 bytes.
fn print_part(s: &[u8])
    requires { length s.now ≤ 2048 }
{
    let mut out = io::buffer();
    let n = put_digits(s, &mut out);
    io::write_all(1, &out[..n]);
}

// Prints bytes as a field, each of them as HH.
pub fn print_bytes(s: &[u8]) {
    if s.is_empty() {
        io::write_all(1, b"-");
        return;
    }
    for part in s.chunks(2048) {
        print_part(part);
    }
}
