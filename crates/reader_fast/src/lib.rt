// Reads many bytes of a program text at once where it has the expected form: words, heads, lists, lines.
//
// Each function goes on from where the reading stands, or stays there: the rest of the text is read to the same end from the stand that it
// returns. None of them refuses a text. What they do not take is left to the automaton.
#![tactic(auto)]

ghost use Rattle.std.specs.Prelude.{◌≡◌};
ghost use Rattle.reader_work.specs.Numbers.{SameCounts};
ghost use Rattle.reader_words.specs.Standing.{read_rest, Goes, GoesHeads, GoesStarts, GoesBodies};

use numbers::{Atom, BODIES, HEADS, MAX_ATOMS, Rule, STARTS};
use program::Program;
use reader_form::{
    FORM_BETWEEN, FORM_CLOSE, FORM_HEAD, FORM_NEGATIVE, FORM_POSITIVE, FORM_RULE, Mode,
};
use reader_words::{Stand, added, fits, has, is_list, listing, ready, short_number_at};
use reader_work::{put_body, put_head};

// Takes the first line.
fn take_atoms_line(text: &[u8], s: Stand) -> Stand
    ensures { Goes s result text.now }
{
    if !ready(s, 0) || !has(text, s.at, b"(atoms ") {
        return s;
    }
    let Some(n) = short_number_at(text, s.at + 7) else {
        return s;
    };
    let to = s.at + 7 + n.count;
    if MAX_ATOMS < n.value || !has(text, to, b")\n") {
        return s;
    }
    Stand {
        k: FORM_RULE,
        at: to + 2,
        atoms: n.value as u8,
        mode: Mode::AtPlace,
        ..s
    }
}

// Takes the bytes before a head.
fn take_rule_word(text: &[u8], s: Stand) -> Stand
    ensures { Goes s result text.now }
{
    if !ready(s, FORM_RULE) || !has(text, s.at, b"(rule ") {
        return s;
    }
    Stand {
        k: FORM_HEAD,
        at: s.at + 6,
        mode: Mode::AtPlace,
        ..s
    }
}

// Takes a head, and the bytes up to the first list.
fn take_head(text: &[u8], s: Stand, heads: &mut [u16; HEADS]) -> Stand
    ensures { GoesHeads s heads.old result heads.new text.now }
{
    if !ready(s, FORM_HEAD) {
        return s;
    }
    let Some(n) = short_number_at(text, s.at) else {
        return s;
    };
    let to = s.at + n.count;
    if u16::from(s.atoms) < n.value || !has(text, to, b" (") {
        return s;
    }
    put_head(&mut *heads, Rule(s.rules + 1), Atom(n.value));
    Stand {
        k: FORM_POSITIVE,
        at: to + 2,
        prev: 0,
        mode: Mode::AtPlace,
        ..s
    }
}

// Takes the closing bracket of an empty list.
fn take_empty_list(text: &[u8], s: Stand) -> Stand
    ensures { Goes s result text.now }
{
    if !is_list(s.k) || s.mode != Mode::AtPlace || !has(text, s.at, b")") {
        return s;
    }
    Stand {
        k: s.k + 2,
        at: s.at + 1,
        ..s
    }
}

// Takes a body atom, and the space or bracket after it.
fn take_body_atom(text: &[u8], s: Stand, bodies: &mut [u16; BODIES]) -> Stand
    ensures { GoesBodies s bodies.old result bodies.new text.now }
{
    if !listing(s) {
        return s;
    }
    let Some(n) = short_number_at(text, s.at) else {
        return s;
    };
    let a = Atom(n.value);
    if !fits(s, a) {
        return s;
    }
    let to = s.at + n.count;
    let (k, mode) = match text[to] {
        b' ' => (s.k, Mode::AtSpace),
        b')' => (s.k + 2, Mode::AtPlace),
        _ => return s,
    };
    put_body(&mut *bodies, usize::from(s.held), a);
    added(s, a, k, mode, to + 1)
}

// Takes the atoms of a list, and its closing bracket.
fn take_body_atoms(text: &[u8], s: Stand, bodies: &mut [u16; BODIES]) -> Stand
    ensures { GoesBodies s bodies.old result bodies.new text.now }
{
    let mut p = s;
    while is_list(p.k) {
        let q = take_body_atom(text, p, &mut *bodies);
        if q.at <= p.at {
            return q;
        }
        p = q;
    }
    p
}

// Takes the bytes between the two lists.
fn take_separator(text: &[u8], s: Stand, starts: &mut [u16; STARTS]) -> Stand
    ensures { GoesStarts s starts.old result starts.new text.now }
{
    if !ready(s, FORM_BETWEEN) || !has(text, s.at, b" (") {
        return s;
    }
    starts[2 * usize::from(s.rules) + 1] = s.held;
    Stand {
        k: FORM_NEGATIVE,
        at: s.at + 2,
        prev: 0,
        mode: Mode::AtPlace,
        ..s
    }
}

// Takes the end of a rule line.
fn take_line_end(text: &[u8], s: Stand, starts: &mut [u16; STARTS]) -> Stand
    ensures { GoesStarts s starts.old result starts.new text.now }
{
    if !ready(s, FORM_CLOSE) || !has(text, s.at, b")\n") {
        return s;
    }
    starts[2 * usize::from(s.rules) + 2] = s.held;
    Stand {
        k: FORM_RULE,
        at: s.at + 2,
        rules: s.rules + 1,
        prev: 0,
        mode: Mode::AtPlace,
        ..s
    }
}

// Takes a rule line, or the front of one.
fn take_rule(text: &[u8], s: Stand, program: &mut Program) -> Stand
    ensures rest { read_rest result program.new.heads program.new.starts program.new.bodies text.now
        ≡ read_rest s program.old.heads program.old.starts program.old.bodies text.now }
    ensures counts { SameCounts program.old program.new }
{
    let a = take_rule_word(text, s);
    if a.k != FORM_HEAD {
        return a;
    }
    let b = take_head(text, a, &mut program.heads);
    if b.k != FORM_POSITIVE {
        return b;
    }
    let c = take_empty_list(text, b);
    let d = take_body_atoms(text, c, &mut program.bodies);
    if d.k != FORM_BETWEEN {
        return d;
    }
    let e = take_separator(text, d, &mut program.starts);
    if e.k != FORM_NEGATIVE {
        return e;
    }
    let f = take_empty_list(text, e);
    let g = take_body_atoms(text, f, &mut program.bodies);
    take_line_end(text, g, &mut program.starts)
}

// Takes the first line and the rule lines, up to what is not of the expected form. Of the program the arrays are written, and not the counts.
pub fn take_lines(text: &[u8], s: Stand, program: &mut Program) -> Stand
    ensures rest { read_rest result program.new.heads program.new.starts program.new.bodies text.now
        ≡ read_rest s program.old.heads program.old.starts program.old.bodies text.now }
    ensures counts { SameCounts program.old program.new }
{
    let mut p = take_atoms_line(text, s);
    while p.at < text.len() {
        let q = take_rule(text, p, &mut *program);
        if q.at <= p.at {
            return q;
        }
        p = q;
    }
    p
}
