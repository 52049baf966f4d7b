// A solver answer: its status, its literals one after the other, and what follows literal 0
// (document 01, "Solver answer"). The definitions are those of the crate answer_form.
#![tactic(auto)]

ghost use Rattle.std.specs.Prelude.{◌+◌, ◌<◌, ◌≡◌, drop};
ghost use Rattle.answer_form.specs.Pieces.{status_of, minus_from, literal_from, next_literal, close_of};
ghost use Rattle.answer_reader.specs.Results.{found_for, next_for, close_for, closed_form};

use answer_words::{
    Tail, common_bytes, end_step, first_line, negative, number_at, positive, space_from,
};
use reader_form::is_digit;
use refusals::CheckRefusal;

// Why an answer offers no model: it has another status, or leaves the form at the spot.
#[derive(Clone, Copy, PartialEq, Eq)]
pub enum AnswerFault {
    NoModel,
    Malformed(usize),
}

// The check's refusal of such an answer, rows 11 and 12.
impl From<AnswerFault> for CheckRefusal {
    ghost use Rattle.answer_reader.specs.Refusals.{refusal_of};

    ghost from_gives = { λ fault result. result ≡ refusal_of fault };

    fn from(fault: AnswerFault) -> CheckRefusal {
        match fault {
            AnswerFault::NoModel => CheckRefusal::NoModelOffered,
            AnswerFault::Malformed(spot) => CheckRefusal::MalformedAnswer(spot),
        }
    }
}

// A literal, capped, with the index of its first byte and the position after it; or literal 0 and the index after it.
#[derive(Clone, Copy, PartialEq, Eq)]
pub enum Token {
    Literal(i32, usize, usize),
    Last(usize),
}

// ---- after literal 0

// Whether only a line end and c lines stand from `at` on; or the spot.
pub fn close(answer: &[u8], at: usize) -> Result<(), usize>
    ensures { result ≡ close_for (close_of answer.now at) }
{
    let mut tail = Tail::Zero;
    for i in at..answer.len() {
        let Some(next) = end_step(tail, answer[i]) else {
            return Err(i);
        };
        tail = next;
    }
    if tail == Tail::LineStart {
        return Ok(());
    }
    Err(answer.len().max(at))
}

// ---- the status

// The index of the byte 10 that ends the status line of a model; or why there is none.
pub fn status(answer: &[u8]) -> Result<usize, AnswerFault>
    ensures { result ≡ found_for (status_of answer.now) }
{
    let at = first_line(answer);
    let yes = common_bytes(answer, at, b"s SATISFIABLE\n");
    if yes == 14 {
        return Ok(at + 13);
    }
    let no = common_bytes(answer, at, b"s UNSATISFIABLE\n");
    if no == 16 {
        return Err(AnswerFault::NoModel);
    }
    let unknown = common_bytes(answer, at, b"s UNKNOWN\n");
    if unknown == 10 {
        return Err(AnswerFault::NoModel);
    }
    Err(AnswerFault::Malformed(at + yes.max(no.max(unknown))))
}

// ---- literals

// The literal whose minus stands before `at`.
// Kept apart from literal_at: after a minus a 0 leaves the form and the first byte stands one earlier, so that one function would ask for both again.
fn minus_at(answer: &[u8], at: usize) -> Result<Token, usize>
    requires { 0 < at }
    ensures { result ≡ next_for (minus_from at (drop at answer.now)) }
{
    if answer.len() <= at {
        return Err(at);
    }
    let b = answer[at];
    if b == b'0' {
        return Err(at);
    }
    if is_digit(b) {
        let n = number_at(answer, at, 0);
        return Ok(Token::Literal(negative(n.value), at - 1, n.behind));
    }
    Err(at)
}

// The literal after a space.
fn literal_at(answer: &[u8], at: usize) -> Result<Token, usize>
    ensures { result ≡ next_for (literal_from at (drop at answer.now)) }
{
    if answer.len() <= at {
        return Err(at);
    }
    let b = answer[at];
    if b == b'-' {
        return minus_at(answer, at + 1);
    }
    if b == b'0' {
        return Ok(Token::Last(at + 1));
    }
    if is_digit(b) {
        let n = number_at(answer, at, 0);
        return Ok(Token::Literal(positive(n.value), at, n.behind));
    }
    Err(at)
}

// The next literal from position `at` on.
fn next_literal(answer: &[u8], at: usize) -> Result<Token, usize>
    ensures { result ≡ next_for (next_literal answer.now at) }
{
    let i = space_from(answer, at)?;
    literal_at(answer, i)
}

// ---- the reader

// A solver answer and a position in it.
#[derive(Clone, Copy)]
pub struct AnswerReader<'a> {
    pub answer: &'a [u8],
    pub position: usize,
}

impl<'a> AnswerReader<'a> {
    // The reader of `answer` at `position`.
    pub fn new(answer: &'a [u8], position: usize) -> AnswerReader<'a>
        ensures { (result.answer ≡ answer.entry) × (result.position ≡ position) }
    {
        AnswerReader { answer, position }
    }

    // The next literal from the reader's position on.
    pub fn next(self) -> Result<Token, usize>
        ensures { result ≡ next_for (next_literal self.entry.answer.now self.entry.position) }
    {
        next_literal(self.answer, self.position)
    }
}

// The next literal from `position` on, by a reader: what a loop over the literals calls at each turn.
pub fn next_from(answer: &[u8], position: usize) -> Result<Token, usize>
    ensures { result ≡ next_for (next_literal answer.now position) }
{
    AnswerReader::new(answer, position).next()
}

// ---- the form

// The form of an answer whose literals begin at `at`, by what follows literal 0: `at`, or why it offers no model.
pub fn closed_form(at: usize, c: Result<(), usize>) -> Result<usize, AnswerFault>
    ensures { result ≡ closed_form at c }
{
    match c {
        Ok(()) => Ok(at),
        Err(spot) => Err(AnswerFault::Malformed(spot)),
    }
}
