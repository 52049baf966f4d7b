// Literals with the digits of their variables, and the lines of clauses of one to three of them, written into a lent buffer: the digits of a variable are found
// once for all clauses of a block that have it (document 01, "Which places take which form").
#![tactic(auto)]

ghost use Rattle.std.specs.Prelude.{◌≡◌, [], ◌∷◌, ◌++◌};
ghost use Rattle.std.proofs.Props.{props};
ghost use Rattle.encoding.specs.Literal.{var};
ghost use Rattle.digits.specs.Bytes.{literal_text, Room, Wrote};
ghost use Rattle.clause_numerals.specs.Numbered.{Short, Numbered};

mod lines;

use clause_literals::{literal, negate};
use digits::{Digits, digits_of, put_digits};
pub use lines::{put_three, put_two};
use numbers::Var;

// A literal as a signed number, and the digits of its variable.
#[derive(Clone, Copy)]
pub struct Numeral {
    pub literal: i32,
    pub digits: Digits,
    pub ghost numbered: { Numbered literal digits } by { Prim.hlevel props },
}

impl Numeral {
    ghost use Rattle.clause_numerals.specs.Numerals.{held, opposed};

    // Variable v, positive.
    pub fn new(v: Var) -> Numeral
        requires { Short v.0 }
        ensures { held result ≡ var v.0 }
    {
        Numeral {
            literal: literal(v),
            digits: digits_of(v.0),
        }
    }

    // The literal with the other sign.
    pub fn opposite(self) -> Numeral
        ensures { held result ≡ opposed (held self) }
    {
        Numeral {
            literal: negate(self.literal),
            digits: self.digits,
        }
    }

    // Writes the literal and one space at the front of the buffer and returns how many bytes they are. The sign's byte is written first, and the digits over
    // it where there is no sign: a positive literal and a negative one take the same way.
    pub fn put(self, buf: &mut [u8]) -> usize
        requires { Room (literal_text self.literal ++ (32 ∷ [])) buf.old }
        ensures { Wrote (literal_text self.literal ++ (32 ∷ [])) buf.old buf.new result }
    {
        let k = usize::from(self.literal.is_negative());
        buf[0] = b'-';
        k + put_digits(self.digits, &mut buf[k..])
    }
}
