// What stands in a solver answer, piece by piece (document 01, "Solver answer"): c lines, fixed strings, spaces and numbers, read byte by byte.
// The definitions are those of the crate answer_form; a place stands for a state of its automaton.
#![tactic(auto)]

ghost use Rattle.std.specs.Prelude.{◌+◌, ◌*◌, ◌-◌, ◌^◌, ◌≤◌, ◌<◌, min, ◌≡◌, length, drop};
ghost use Rattle.encoding.specs.Literal.{literal_number, var, −◌};
ghost use Rattle.answer_form.specs.Automaton.{seek_step, end_step};
ghost use Rattle.answer_form.specs.Pieces.{common, first_line, capped_value, behind_digits};
ghost use Rattle.answer_words.specs.Words.{most_number, line_number, tail_number, tail_state, place_number, place_state, space_from};

use clause_literals::negate;
use reader_form::is_digit;

// ---- c lines

// A place after literal 0.
#[derive(Clone, Copy, PartialEq, Eq)]
pub enum Tail {
    Zero,
    LineStart,
    Comment,
}

// The place after byte b; none where b leaves the form.
#[tactic(auto, unfolding(answer_form::specs::Automaton::end_step))]
pub fn end_step(q: Tail, b: u8) -> Option<Tail>
    ensures { tail_state result ≡ end_step (tail_number q) b }
{
    match q {
        Tail::Zero => match b {
            b'\n' => Some(Tail::LineStart),
            _ => None,
        },
        Tail::LineStart => match b {
            b'c' => Some(Tail::Comment),
            _ => None,
        },
        Tail::Comment => match b {
            b'\n' => Some(Tail::LineStart),
            _ => Some(Tail::Comment),
        },
    }
}

// The index of the first line that is no c line.
pub fn first_line(answer: &[u8]) -> usize
    ensures { (result ≡ first_line 0 0 answer.now) × (result ≤ length answer.now) }
{
    let mut in_comment = false;
    for (i, b) in answer.iter().enumerate() {
        if !in_comment && *b != b'c' {
            return i;
        }
        in_comment = *b != b'\n';
    }
    answer.len()
}

// ---- fixed strings

// How many bytes the answer from `at` on shares with `word`.
pub fn common_bytes<'a>(answer: &'a [u8], at: usize, word: &'a [u8]) -> usize
    ensures { result ≡ common (drop at answer.now) word.now }
{
    for (k, b) in word.iter().enumerate() {
        if answer.len().saturating_sub(at) <= k || answer[at + k] != *b {
            return k;
        }
    }
    word.len()
}

// ---- numbers

// The largest magnitude of a literal that is handed out.
const MOST_NUMBER: u64 = 2147483647;

// Variable v as a positive literal.
pub fn positive(v: u32) -> i32
    requires { v < 2 ^ 31 }
    ensures { result ≡ literal_number (var v) }
{
    v as i32
}

// The negation of variable v as a literal.
pub fn negative(v: u32) -> i32
    requires { v < 2 ^ 31 }
    ensures { result ≡ literal_number (− v) }
{
    negate(positive(v))
}

// The number with one more digit, capped.
fn with_digit(v: u32, b: u8) -> u32
    requires { 48 ≤ b }
    ensures { result ≡ min most_number (v * 10 + (b - 48)) }
{
    (u64::from(v) * 10 + u64::from(b - b'0')).min(MOST_NUMBER) as u32
}

// A number, capped, and the index after its digits.
#[derive(Clone, Copy)]
pub struct Number {
    pub value: u32,
    pub behind: usize,
}

// The number of `value`'s digits and those from `at` on.
pub fn number_at(answer: &[u8], at: usize, value: u32) -> Number
    ensures { (result.value ≡ capped_value most_number value (drop at answer.now))
        × (result.behind ≡ behind_digits at (drop at answer.now)) }
{
    let mut v = value;
    for i in at..answer.len() {
        let b = answer[i];
        if !is_digit(b) {
            return Number {
                value: v,
                behind: i,
            };
        }
        v = with_digit(v, b);
    }
    Number {
        value: v,
        behind: answer.len().max(at),
    }
}

// ---- spaces

// A place between literals: at a line's start, in a c line, after v or a literal, or after a space.
#[derive(Clone, Copy, PartialEq, Eq)]
enum Place {
    LineStart,
    Comment,
    Values,
    Space,
}

// The place after byte b; none where b leaves the form.
#[tactic(auto, unfolding(answer_form::specs::Automaton::seek_step))]
fn seek_step(q: Place, b: u8) -> Option<Place>
    ensures { place_state result ≡ seek_step (place_number q) b }
{
    match q {
        Place::LineStart => match b {
            b'c' => Some(Place::Comment),
            b'v' => Some(Place::Values),
            _ => None,
        },
        Place::Comment => match b {
            b'\n' => Some(Place::LineStart),
            _ => Some(Place::Comment),
        },
        Place::Values | Place::Space => match b {
            b' ' => Some(Place::Space),
            b'\n' => Some(Place::LineStart),
            _ => None,
        },
    }
}

// The index after the next space from position `at` on; or the spot. Mostly the space stands there.
pub fn space_from(answer: &[u8], at: usize) -> Result<usize, usize>
    ensures { result ≡ space_from 35 at (drop at answer.now) }
{
    if at < answer.len() && answer[at] == b' ' {
        return Ok(at + 1);
    }
    let mut place = Place::Values;
    for i in at..answer.len() {
        let Some(next) = seek_step(place, answer[i]) else {
            return Err(i);
        };
        if next == Place::Space {
            return Ok(i + 1);
        }
        place = next;
    }
    Err(answer.len().max(at))
}
