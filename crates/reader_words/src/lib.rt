// Where the reading of a program text stands between two parts of the form, and what the text has there: a fixed word, a number of one to three digits.
#![tactic(auto)]

ghost use Rattle.std.specs.Prelude.{◌<◌, ◌≡◌};
ghost use Rattle.reader_words.specs.Standing.{has_at, short_number_of, short_number_at, ready_at, list_at, listing_at, fits_at, added_to};

use numbers::{Atom, MAX_BODY_ATOMS, MAX_RULES};
use reader_form::{FORM_NEGATIVE, FORM_POSITIVE, Mode, is_digit};

// Where the reading stands, with no number begun and nothing refused: the place in the form and its mode, the next byte, what is counted,
// and the list's last number. The fields leave no gap between them, so a copy moves whole words.
#[derive(Clone, Copy)]
pub struct Stand {
    pub k: usize,
    pub at: usize,
    pub rules: u16,
    pub held: u16,
    pub prev: u16,
    pub atoms: u8,
    pub mode: Mode,
}

// A number, and how many digits it has.
#[derive(Clone, Copy)]
pub struct ShortNumber {
    pub value: u16,
    pub count: usize,
}

// ---- the text

// Whether the bytes from `at` on begin with `word`.
pub fn has<'a>(text: &'a [u8], at: usize, word: &'a [u8]) -> bool
    ensures { result ≡ has_at text.now at word.now }
{
    at <= text.len() && text[at..].starts_with(word)
}

// The number of one to three digits, the first not 0, that begins with the bytes a, b and c.
pub fn short_number_of(a: u8, b: u8, c: u8) -> Option<ShortNumber>
    ensures { result ≡ short_number_of a b c }
{
    if a < b'1' || b'9' < a {
        return None;
    }
    let x = u16::from(a - b'0');
    if !is_digit(b) {
        return Some(ShortNumber { value: x, count: 1 });
    }
    let y = x * 10 + u16::from(b - b'0');
    if !is_digit(c) {
        return Some(ShortNumber { value: y, count: 2 });
    }
    Some(ShortNumber {
        value: y * 10 + u16::from(c - b'0'),
        count: 3,
    })
}

// The number of one to three digits at `at`, where four bytes are left.
pub fn short_number_at(text: &[u8], at: usize) -> Option<ShortNumber>
    ensures { result ≡ short_number_at text.now at }
{
    if text.len() < 4 || text.len() - 4 < at {
        return None;
    }
    short_number_of(text[at], text[at + 1], text[at + 2])
}

// ---- the stand

// Whether the reading stands at place k itself, with fewer than 500 rules.
pub fn ready(s: Stand, k: usize) -> bool
    ensures { result ≡ ready_at s k }
{
    s.k == k && s.mode == Mode::AtPlace && s.rules < MAX_RULES
}

// Whether place k has a list.
pub fn is_list(k: usize) -> bool
    ensures { result ≡ list_at k }
{
    k == FORM_POSITIVE || k == FORM_NEGATIVE
}

// Whether the reading stands in a list where a number may begin.
pub fn listing(s: Stand) -> bool
    ensures { result ≡ listing_at s }
{
    is_list(s.k) && (s.mode == Mode::AtPlace || s.mode == Mode::AtSpace)
}

// Whether a is an atom of the program above the list's last one, and there is room for it.
pub fn fits(s: Stand, a: Atom) -> bool
    ensures { result ≡ fits_at s a.0 }
{
    a.0 <= u16::from(s.atoms) && s.prev < a.0 && s.held < MAX_BODY_ATOMS
}

// The stand with one body atom more, at place k, in `mode`, before byte `at`.
pub fn added(s: Stand, a: Atom, k: usize, mode: Mode, at: usize) -> Stand
    requires { s.held < 500 }
    ensures { result ≡ added_to s a.0 k mode at }
{
    Stand {
        k,
        at,
        held: s.held + 1,
        prev: a.0,
        mode,
        ..s
    }
}
