// The lines of clauses of one literal, of two and of three. Each function writes at the front of the buffer and returns how many bytes it wrote.

ghost use Rattle.std.specs.Prelude.{[], ◌∷◌};
ghost use Rattle.digits.specs.Bytes.{line_text, Room, Wrote};
ghost use Rattle.clause_numerals.specs.Numerals.{held};

use super::Numeral;

fn put_one(x: Numeral, buf: &mut [u8]) -> usize
    requires { Room (line_text (held x ∷ [])) buf.old }
    ensures { Wrote (line_text (held x ∷ [])) buf.old buf.new result }
{
    let at = x.put(&mut *buf);
    buf[at] = b'0';
    buf[at + 1] = b'\n';
    at + 2
}

pub fn put_two(x: Numeral, y: Numeral, buf: &mut [u8]) -> usize
    requires { Room (line_text (held x ∷ held y ∷ [])) buf.old }
    ensures { Wrote (line_text (held x ∷ held y ∷ [])) buf.old buf.new result }
{
    let at = x.put(&mut *buf);
    at + put_one(y, &mut buf[at..])
}

pub fn put_three(x: Numeral, y: Numeral, z: Numeral, buf: &mut [u8]) -> usize
    requires { Room (line_text (held x ∷ held y ∷ held z ∷ [])) buf.old }
    ensures { Wrote (line_text (held x ∷ held y ∷ held z ∷ [])) buf.old buf.new result }
{
    let at = x.put(&mut *buf);
    at + put_two(y, z, &mut buf[at..])
}
