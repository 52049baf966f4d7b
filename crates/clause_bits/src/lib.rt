// Group 5: the lines of a chain's bit, formed from signed literals, into a lent buffer (document 01, "Clauses, in order"). Each function writes at the front of
// the buffer and returns how many bytes it wrote.
#![tactic(auto)]

ghost use Rattle.digits.specs.Bytes.{Room, Wrote};
ghost use Rattle.clause_numerals.specs.Numerals.{held};
ghost use Rattle.clause_bits.specs.BitTexts.{starts_text, ends_text, half_text, first_text, next_text, ShortBit, bit_text};

use clause_chains::Chain;
use clause_numerals::{Numeral, put_three, put_two};

// The lines of p with x, and of p with y.
#[tactic(auto, unfolding(crate::specs::BitTexts::starts_text))]
fn put_starts(p: Numeral, x: Numeral, y: Numeral, buf: &mut [u8]) -> usize
    requires { Room (starts_text (held p) (held x) (held y)) buf.old }
    ensures { Wrote (starts_text (held p) (held x) (held y)) buf.old buf.new result }
{
    let at = put_two(p, x, &mut *buf);
    at + put_two(p, y, &mut buf[at..])
}

// The lines of p and x with y, and of p and x with g.
#[tactic(auto, unfolding(crate::specs::BitTexts::ends_text))]
fn put_ends(p: Numeral, x: Numeral, y: Numeral, g: Numeral, buf: &mut [u8]) -> usize
    requires { Room (ends_text (held p) (held x) (held y) (held g)) buf.old }
    ensures { Wrote (ends_text (held p) (held x) (held y) (held g)) buf.old buf.new result }
{
    let at = put_three(p, x, y, &mut *buf);
    at + put_three(p, x, g, &mut buf[at..])
}

// The lines of p with two of x, y and g.
#[tactic(auto, unfolding(crate::specs::BitTexts::half_text))]
fn put_half(p: Numeral, x: Numeral, y: Numeral, g: Numeral, buf: &mut [u8]) -> usize
    requires { Room (half_text (held p) (held x) (held y) (held g)) buf.old }
    ensures { Wrote (half_text (held p) (held x) (held y) (held g)) buf.old buf.new result }
{
    let at = put_ends(p, x, y, g, &mut *buf);
    at + put_three(p, y, g, &mut buf[at..])
}

// The lines of a chain's first bit, and of a further one.
// Kept as numerals: `put_bit` takes them out of the chain once, for all its lines.
#[tactic(auto, unfolding(crate::specs::BitTexts::first_text))]
fn put_first_bit(z: Numeral, x: Numeral, y: Numeral, buf: &mut [u8]) -> usize
    requires { Room (first_text (held z) (held x) (held y)) buf.old }
    ensures { Wrote (first_text (held z) (held x) (held y)) buf.old buf.new result }
{
    let not_z = z.opposite();
    let not_x = x.opposite();
    let not_y = y.opposite();
    let at = put_starts(not_z, not_x, y, &mut *buf);
    at + put_three(z, x, not_y, &mut buf[at..])
}

#[tactic(auto, unfolding(crate::specs::BitTexts::next_text))]
fn put_next_bit(z: Numeral, x: Numeral, y: Numeral, g: Numeral, buf: &mut [u8]) -> usize
    requires { Room (next_text (held z) (held x) (held y) (held g)) buf.old }
    ensures { Wrote (next_text (held z) (held x) (held y) (held g)) buf.old buf.new result }
{
    let not_z = z.opposite();
    let not_x = x.opposite();
    let not_y = y.opposite();
    let not_g = g.opposite();
    let at = put_half(not_z, not_x, y, g, &mut *buf);
    at + put_half(z, x, not_y, not_g, &mut buf[at..])
}

// The lines of bit i of a chain.
pub fn put_bit(c: Chain, i: u16, buf: &mut [u8]) -> usize
    requires { (ShortBit c i) × (Room (bit_text c i) buf.old) }
    ensures { Wrote (bit_text c i) buf.old buf.new result }
{
    let z = Numeral::new(c.z);
    let x = Numeral::new(c.x);
    let y = Numeral::new(c.y);
    match i {
        1 => put_first_bit(z, x, y, buf),
        _ => put_next_bit(z, x, y, Numeral::new(c.g), buf),
    }
}
