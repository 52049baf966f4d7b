// The automaton of the program text: from a place in the form, one byte on.
//
// Kept as numbers: a place is an index into the bytes of the form, and the next place is the next index.
#![tactic(auto)]

ghost use Rattle.std.specs.Prelude.{◌≡◌, ◌<◌, min};
ghost use Rattle.reader_form.specs.Automaton.{placed, form_at, digit_test, literal_of, leave_of, digit_of, item_of, act_at, form_step};
ghost use Rattle.reader_form.specs.Numbers.{mode_number, act_number, numbered};

// The form: `#` stands for a number, `*` for a list of numbers.
const FORM: &[u8; FORM_LENGTH] = b"(atoms #)\n(rule # (*) (*))\n";

// The place of the number of atoms.
pub const FORM_ATOMS: usize = 7;

// The place where a rule line begins, and where a text may end.
pub const FORM_RULE: usize = 10;

// The place of a head.
pub const FORM_HEAD: usize = 16;

// The place of a positive list.
pub const FORM_POSITIVE: usize = 19;

// The place of the space between the two lists.
pub const FORM_BETWEEN: usize = 21;

// The place of a negative list.
pub const FORM_NEGATIVE: usize = 23;

// The place of the last bracket of a rule line.
pub const FORM_CLOSE: usize = 25;

// The place of the byte 10 that ends a rule line.
pub const FORM_LINE_END: usize = 26;

// How many bytes the form has.
pub const FORM_LENGTH: usize = 27;

// How far the form is read at a place: at the place itself, in the number 0, in a number that does not begin with 0, after a list's space,
// or past any text of the form.
#[derive(Clone, Copy, PartialEq, Eq)]
pub enum Mode {
    AtPlace,
    InZero,
    InNumber,
    AtSpace,
    Dead,
}

// The mode of a number; what is above the last one's is taken for that.
impl From<u8> for Mode {
    ghost from_gives = { λ n mode. mode_number mode ≡ min n 4 };

    fn from(n: u8) -> Mode {
        match n {
            0 => Mode::AtPlace,
            1 => Mode::InZero,
            2 => Mode::InNumber,
            3 => Mode::AtSpace,
            _ => Mode::Dead,
        }
    }
}

// What a byte does: nothing, begin a number, go on with it, end it, begin a rule line, end a positive list, or end a rule line.
#[derive(Clone, Copy, PartialEq, Eq)]
pub enum Action {
    Nothing,
    BeginNumber,
    GrowNumber,
    EndNumber,
    BeginRule,
    EndList,
    EndRule,
}

// The action of a number, likewise.
impl From<u8> for Action {
    ghost from_gives = { λ n act. act_number act ≡ min n 6 };

    fn from(n: u8) -> Action {
        match n {
            0 => Action::Nothing,
            1 => Action::BeginNumber,
            2 => Action::GrowNumber,
            3 => Action::EndNumber,
            4 => Action::BeginRule,
            5 => Action::EndList,
            _ => Action::EndRule,
        }
    }
}

// Place k of the form, how far it is read there, and what the last byte does.
#[derive(Clone, Copy)]
pub struct FormState {
    pub k: usize,
    pub mode: Mode,
    pub act: Action,
}

// Past any text of the form, at place k.
fn dead(k: usize) -> FormState
    ensures { numbered result ≡ placed k 4 0 }
{
    FormState {
        k,
        mode: Mode::Dead,
        act: Action::Nothing,
    }
}

// The byte of the form at place k, 0 past its end.
fn form_at(k: usize) -> u8
    ensures { result ≡ form_at k }
{
    FORM.get(k).copied().unwrap_or(0)
}

// Whether b is a decimal digit.
pub fn is_digit(b: u8) -> bool
    ensures { result ≡ digit_test b }
{
    b.is_ascii_digit()
}

// Byte b where place k has a fixed byte; the action is `act` if it is that byte.
fn literal(k: usize, b: u8, act: Action) -> FormState
    ensures { numbered result ≡ literal_of k b (act_number act) }
{
    if b != form_at(k) || FORM_LENGTH <= k {
        return dead(k);
    }
    FormState {
        k: if b == b'\n' { FORM_RULE } else { k + 1 },
        mode: Mode::AtPlace,
        act,
    }
}

// Byte b, no digit, at or after the numbers of place k, whose byte in the form is c.
fn leave(k: usize, c: u8, mode: Mode, b: u8) -> FormState
    requires { k < 27 }
    ensures { numbered result ≡ leave_of k c (mode_number mode) b }
{
    match mode {
        Mode::AtPlace if c == b'*' => literal(k + 1, b, Action::Nothing),
        Mode::AtPlace | Mode::AtSpace => dead(k),
        _ if c == b'*' && b == b' ' => FormState {
            k,
            mode: Mode::AtSpace,
            act: Action::EndNumber,
        },
        _ => literal(k + 1, b, Action::EndNumber),
    }
}

// A digit b in the numbers of place k.
// Kept as tests: a match on the mode, as one on an action, is a jump through a table, and a byte of a refused text took 17 ns in place of 4.
fn digit(k: usize, mode: Mode, b: u8) -> FormState
    ensures { numbered result ≡ digit_of k (mode_number mode) b }
{
    if mode == Mode::InZero {
        return dead(k);
    }
    if mode == Mode::InNumber {
        return FormState {
            k,
            mode,
            act: Action::GrowNumber,
        };
    }
    FormState {
        k,
        mode: if b == b'0' {
            Mode::InZero
        } else {
            Mode::InNumber
        },
        act: Action::BeginNumber,
    }
}

// Byte b where place k has a number or a list, whose byte in the form is c.
fn item(k: usize, c: u8, mode: Mode, b: u8) -> FormState
    requires { k < 27 }
    ensures { numbered result ≡ item_of k c (mode_number mode) b }
{
    if is_digit(b) {
        return digit(k, mode, b);
    }
    leave(k, c, mode, b)
}

// What the fixed byte at place k does, once it is read.
fn act_at(k: usize) -> Action
    ensures { act_number result ≡ act_at k }
{
    match k {
        FORM_RULE => Action::BeginRule,
        FORM_BETWEEN => Action::EndList,
        FORM_LINE_END => Action::EndRule,
        _ => Action::Nothing,
    }
}

// Byte b, from place k in mode `mode`.
pub fn step(k: usize, mode: Mode, b: u8) -> FormState
    ensures { numbered result ≡ form_step k (mode_number mode) b }
{
    match form_at(k) {
        c @ (b'#' | b'*') => item(k, c, mode, b),
        _ => literal(k, b, act_at(k)),
    }
}
