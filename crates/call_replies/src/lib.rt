// The reply of a call for other languages, from its verdict.
#![tactic(auto)]

ghost use Rattle.std.specs.Prelude.{◌≡◌};
ghost use Rattle.call_replies.specs.declared.Reply.{Reply};
ghost use Rattle.call_replies.specs.Replies.{accepted_reply, refused_reply, of_verdict, of_totals, of_length, of_lines, of_model, of_set};

use call_check_rows::Shown;
use call_fill_rows::Filled;
use call_lines_rows::Run;
use clause_tables::Totals;
use refusals::Refusal;

// The row's number and the spot of a refusal, both 0 for acceptance; and the numbers that an accepted call gives, 0 where it gives none.
// Kept as numbers: it is the C interface's struct.
#[repr(C)]
#[derive(Clone, Copy)]
pub struct Reply {
    pub number: u64,
    pub spot: u64,
    pub a: u64,
    pub b: u64,
    pub c: u64,
    pub d: u64,
}

// The reply of an accepted call that gives a, b and c.
fn accepted(a: usize, b: usize, c: usize) -> Reply
    ensures { result ≡ accepted_reply a b c }
{
    Reply {
        number: 0,
        spot: 0,
        a: a as u64,
        b: b as u64,
        c: c as u64,
        d: 0,
    }
}

// The reply of a call that is refused by row `number` at `spot`.
fn refused(number: u8, spot: usize) -> Reply
    ensures { result ≡ refused_reply number spot }
{
    Reply {
        number: u64::from(number),
        spot: spot as u64,
        a: 0,
        b: 0,
        c: 0,
        d: 0,
    }
}

// What an accepted call gives, with its reply.
pub trait Given: Copy {
    ghost reply_of: { Self → Reply };

    fn reply(self) -> Reply
        ensures { result ≡ reply_of self };
}

// V and C of a program.
impl Given for Totals {
    ghost reply_of = { of_totals };

    fn reply(self) -> Reply {
        accepted(self.vars, self.clauses, 0)
    }
}

// A line's length.
impl Given for usize {
    ghost reply_of = { of_length };

    fn reply(self) -> Reply {
        accepted(self, 0, 0)
    }
}

// How many lines, and how many bytes.
impl Given for Run {
    ghost reply_of = { of_lines };

    fn reply(self) -> Reply {
        accepted(self.lines, self.bytes, 0)
    }
}

// How many atoms are true, the highest level, and how many variables the answer left out.
impl Given for Shown {
    ghost reply_of = { of_model };

    fn reply(self) -> Reply {
        accepted(self.atoms, self.highest, self.assumed)
    }
}

// How many atoms are true, and the highest level.
impl Given for Filled {
    ghost reply_of = { of_set };

    fn reply(self) -> Reply {
        accepted(self.atoms, self.highest, 0)
    }
}

// The reply for a verdict.
pub fn reply_to<A: Given, R: Refusal>(verdict: Result<A, R>) -> Reply
    ensures { result ≡ of_verdict A.reply_of R.number_of R.spot_of verdict }
{
    match verdict {
        Ok(given) => given.reply(),
        Err(refusal) => refused(refusal.number(), refusal.spot()),
    }
}
