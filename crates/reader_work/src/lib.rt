// What the reader keeps while it reads a program text, and what each byte does to it (document 01, rows 3 to 7).
#![tactic(auto)]

ghost use Rattle.std.specs.Prelude.{◌-◌, ◌≤◌, ◌<◌, ◌≡◌, set};
ghost use Rattle.refusals.specs.Numbers.{text_number, text_spot};
ghost use Rattle.reader_form.specs.Numbers.{act_number};
ghost use Rattle.reader_work.specs.Work.{refused_of, grown_of, value_after, begin_after, atoms_ended, head_ended, head_stored, body_ended, body_stored};
ghost use Rattle.reader_work.specs.Work.{opened_of, start_stored, rule_shut, ended_of, ended_heads, ended_bodies};
ghost use Rattle.reader_work.specs.Work.{work_of, work_heads, work_starts, work_bodies};
ghost use Rattle.reader_work.specs.Numbers.{tally, with_arrays};

use numbers::{Atom, BODIES, HEADS, MAX_ATOMS, MAX_BODY_ATOMS, MAX_RULES, Rule, STARTS};
use program::Program;
use reader_form::{Action, FORM_ATOMS, FORM_HEAD};
use refusals::TextRefusal;

// What is read so far: the number of atoms, the rules and body atoms stored, the list's last number, and the first refusal.
#[derive(Clone, Copy)]
pub struct Counts {
    pub atoms: u16,
    pub rules: u16,
    pub held: u16,
    pub prev: u16,
    pub refusal: Option<TextRefusal>,
}

// Stores the head of rule r, and body atom j, from 0.
pub fn put_head(heads: &mut [u16; HEADS], r: Rule, a: Atom)
    requires { (0 < r.0) × (r.0 ≤ 500) }
    ensures { heads.new ≡ set heads.old (r.0 - 1) a.0 }
{
    heads[usize::from(r.0 - 1)] = a.0;
}

pub fn put_body(bodies: &mut [u16; BODIES], j: usize, a: Atom)
    requires { j < 500 }
    ensures { bodies.new ≡ set bodies.old j a.0 }
{
    bodies[j] = a.0;
}

// The counts with a refusal.
pub fn refused(c: Counts, refusal: TextRefusal) -> Counts
    ensures { tally result ≡ refused_of (tally c) (text_number refusal) (text_spot refusal) }
{
    Counts {
        refusal: Some(refusal),
        ..c
    }
}

// The number being read with one digit more, kept at 1000 once it is that large.
fn grown(value: u16, b: u8) -> u16
    ensures { result ≡ grown_of value b }
{
    if 999 < value {
        1000
    } else if b < b'0' {
        0
    } else {
        (value * 10 + u16::from(b - b'0')).min(1000)
    }
}

// The number being read after byte b with action `act`, which begins it or goes on; there is none otherwise.
// Kept as tests, here and below: a match on the action is a jump through a table, and a byte of a refused text took 17 ns in place of 4.
fn value_after(act: Action, value: u16, b: u8) -> u16
    ensures { result ≡ value_after (act_number act) value b }
{
    if act == Action::BeginNumber {
        grown(0, b)
    } else if act == Action::GrowNumber {
        grown(value, b)
    } else {
        0
    }
}

// Where the number being read begins, 0 where there is none.
fn begin_after(act: Action, begin: usize, i: usize) -> usize
    ensures { result ≡ begin_after (act_number act) begin i }
{
    if act == Action::BeginNumber {
        i
    } else if act == Action::GrowNumber {
        begin
    } else {
        0
    }
}

// The place in the form, and the number being read there: its value so far and its first byte, both 0 where there is none.
// Kept as numbers: they are looked at only where a number ends, which the automaton alone knows, so an option would be unwrapped there.
#[derive(Clone, Copy)]
pub struct Token {
    pub k: usize,
    pub value: u16,
    pub begin: usize,
}

// The token after byte b at i with action `act`, which leads to place k.
pub fn token_after(act: Action, x: Token, k: usize, b: u8, i: usize) -> Token
    ensures { result ≡ record { k = k; value = value_after (act_number act) x.value b; begin = begin_after (act_number act) x.begin i } }
{
    Token {
        k,
        value: value_after(act, x.value, b),
        begin: begin_after(act, x.begin, i),
    }
}

// The counts once the number of atoms is read.
fn end_atoms(x: Token, c: Counts) -> Counts
    ensures { tally result ≡ atoms_ended x.value x.begin (tally c) }
{
    if MAX_ATOMS < x.value {
        return refused(c, TextRefusal::TooManyAtoms(x.begin));
    }
    Counts {
        atoms: x.value,
        ..c
    }
}

// The counts and heads once a head is read.
fn end_head(x: Token, c: Counts, heads: &mut [u16; HEADS]) -> Counts
    ensures { (tally result ≡ head_ended x.value x.begin (tally c)) × (heads.new ≡ head_stored x.value (tally c) heads.old) }
{
    if x.value == 0 || c.atoms < x.value {
        return refused(c, TextRefusal::UnknownAtom(x.begin));
    }
    if c.rules < MAX_RULES {
        put_head(&mut *heads, Rule(c.rules + 1), Atom(x.value));
    }
    Counts { prev: 0, ..c }
}

// The counts and body atoms once a body atom is read.
fn end_body(x: Token, c: Counts, bodies: &mut [u16; BODIES]) -> Counts
    ensures { (tally result ≡ body_ended x.value x.begin (tally c)) × (bodies.new ≡ body_stored x.value (tally c) bodies.old) }
{
    if x.value == 0 || c.atoms < x.value {
        return refused(c, TextRefusal::UnknownAtom(x.begin));
    }
    if x.value <= c.prev {
        return refused(c, TextRefusal::Unordered(x.begin));
    }
    if MAX_BODY_ATOMS <= c.held {
        return refused(c, TextRefusal::BodiesFull(x.begin));
    }
    put_body(&mut *bodies, usize::from(c.held), Atom(x.value));
    Counts {
        held: c.held + 1,
        prev: x.value,
        ..c
    }
}

// The counts once a rule line begins at i.
fn open_rule(i: usize, c: Counts) -> Counts
    ensures { tally result ≡ opened_of i (tally c) }
{
    if c.rules < MAX_RULES {
        return c;
    }
    refused(c, TextRefusal::TooManyRules(i))
}

// Stores the end of list j of the rule being read, 1 for the positive one and 2 for the negative.
fn close_list(j: usize, c: Counts, starts: &mut [u16; STARTS])
    requires { j < 3 }
    ensures { starts.new ≡ start_stored j (tally c) starts.old }
{
    if c.rules < MAX_RULES {
        starts[2 * usize::from(c.rules) + j] = c.held;
    }
}

// The counts once a rule line ends.
fn close_rule(c: Counts) -> Counts
    ensures { tally result ≡ rule_shut (tally c) }
{
    if MAX_RULES <= c.rules {
        return c;
    }
    Counts {
        rules: c.rules + 1,
        prev: 0,
        ..c
    }
}

// The number of token x is read.
fn end_number(x: Token, c: Counts, program: &mut Program) -> Counts
    ensures counts { tally result ≡ ended_of x.k x.value x.begin (tally c) }
    ensures arrays { program.new ≡ with_arrays program.old
        (ended_heads x.k x.value (tally c) program.old.heads) program.old.starts (ended_bodies x.k x.value (tally c) program.old.bodies) }
{
    match x.k {
        FORM_ATOMS => end_atoms(x, c),
        FORM_HEAD => end_head(x, c, &mut program.heads),
        _ => end_body(x, c, &mut program.bodies),
    }
}

// What byte i does with action `act` at token x. Of the program the arrays are written, and not the counts.
pub fn work(act: Action, x: Token, i: usize, c: Counts, program: &mut Program) -> Counts
    ensures counts { tally result ≡ work_of (act_number act) x.k x.value x.begin i (tally c) }
    ensures arrays { program.new ≡ with_arrays program.old
        (work_heads (act_number act) x.k x.value (tally c) program.old.heads)
        (work_starts (act_number act) (tally c) program.old.starts)
        (work_bodies (act_number act) x.k x.value (tally c) program.old.bodies) }
{
    if c.refusal.is_some() {
        return c;
    }
    match act {
        Action::Nothing | Action::BeginNumber | Action::GrowNumber => c,
        Action::EndNumber => end_number(x, c, &mut *program),
        Action::BeginRule => open_rule(i, c),
        Action::EndList => {
            close_list(1, c, &mut program.starts);
            Counts { prev: 0, ..c }
        }
        Action::EndRule => {
            close_list(2, c, &mut program.starts);
            close_rule(c)
        }
    }
}
