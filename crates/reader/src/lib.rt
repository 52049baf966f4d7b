// The reader of program text.
#![tactic(auto)]

ghost use Rattle.std.specs.Prelude.{◌≡◌};
ghost use Rattle.reader_work.specs.Fold.{Ends, read_from, started};
ghost use Rattle.reader_work.specs.Numbers.{tally, SameCounts};
ghost use Rattle.reader_words.specs.Standing.{read_rest};
ghost use Rattle.program.specs.Arrays.{empty_program};
ghost use Rattle.reader.specs.Verdict.{program_of, verdict_of, verdict_told, refuse_of, read_of, left_of};
ghost use Rattle.reader.specs.Counted.{counted_of};

use program::{Program, empty};
use reader_fast::take_lines;
use reader_form::{FORM_RULE, Mode, step};
use reader_words::Stand;
use reader_work::{Counts, Token, refused, token_after, work};
use refusals::TextRefusal;

// The most bytes of a program text, and of a solver answer (document 01, "Program text" and "Solver answer").
pub const MAX_TEXT: usize = 65536;

// Reads on to the end of the text, byte by byte: counts and arrays at the end. The counts of the program are left as they are.
// Kept as three: the text is read, the stand is a copy, and the program is lent to be written.
fn finish(text: &[u8], s: Stand, program: &mut Program) -> Counts
    ensures ends { Ends (tally result) program.new.heads program.new.starts program.new.bodies
        (read_rest s program.old.heads program.old.starts program.old.bodies text.now) }
    ensures counts { SameCounts program.old program.new }
{
    let mut x = Token {
        k: s.k,
        value: 0,
        begin: 0,
    };
    let mut mode = s.mode;
    let mut c = Counts {
        atoms: u16::from(s.atoms),
        rules: s.rules,
        held: s.held,
        prev: s.prev,
        refusal: None,
    };
    for i in s.at..text.len() {
        let b = text[i];
        let p = step(x.k, mode, b);
        if p.mode == Mode::Dead {
            return refused(c, TextRefusal::Malformed(i));
        }
        c = work(p.act, x, i, c, &mut *program);
        x = token_after(p.act, x, p.k, b, i);
        mode = p.mode;
    }
    if x.k != FORM_RULE || mode != Mode::AtPlace {
        return refused(c, TextRefusal::Malformed(text.len().max(s.at)));
    }
    c
}

// Reads the text into the program, whose arrays hold zeros: all that is counted, and the first refusal. Its length is not looked at.
pub fn read_into(text: &[u8], program: &mut Program) -> Counts
    ensures counts { Ends (tally result) program.new.heads program.new.starts program.new.bodies
        (read_from (started program.old.heads program.old.starts program.old.bodies) 0 text.now) }
    ensures verdict { verdict_told result.refusal ≡ verdict_of (read_from (started program.old.heads program.old.starts program.old.bodies) 0 text.now) }
    ensures program { program.new ≡ program_of (read_from (started program.old.heads program.old.starts program.old.bodies) 0 text.now) }
{
    let s = Stand {
        k: 0,
        mode: Mode::AtPlace,
        at: 0,
        atoms: 0,
        rules: 0,
        held: 0,
        prev: 0,
    };
    let p = take_lines(text, s, &mut *program);
    let c = finish(text, p, &mut *program);
    program.atoms = c.atoms;
    program.rules = c.rules;
    program.held = c.held;
    c
}

// Whether a text is a program, or why it is refused.
pub type ReadVerdict = Result<(), TextRefusal>;

// A text's verdict, and its program: the empty one where the text is refused.
// Kept beside one another: document 01 asks for verdict enums without arrays.
#[derive(Drop)]
pub struct ReadResult {
    pub verdict: ReadVerdict,
    pub program: Program,
}

// Reads a text into the program, which is the empty one.
pub fn read_program(text: &[u8], program: &mut Program) -> Result<(), TextRefusal>
    requires { program.old ≡ empty_program }
    ensures verdict { result ≡ (read_of text.now).verdict }
    ensures program { program.new ≡ left_of text.now }
{
    if MAX_TEXT < text.len() {
        return Err(TextRefusal::Overlong(text.len()));
    }
    match read_into(text, program).refusal {
        None => Ok(()),
        Some(refusal) => Err(refusal),
    }
}

// A text that is refused, and the empty program.
fn refuse(refusal: TextRefusal) -> ReadResult
    ensures { result ≡ refuse_of refusal }
{
    ReadResult {
        verdict: Err(refusal),
        program: empty(),
    }
}

// Reads a program text: its verdict, and its program if it is accepted.
pub fn read(text: &[u8]) -> ReadResult
    ensures { result ≡ read_of text.now }
{
    let mut program = empty();
    match read_program(text, &mut program) {
        Ok(()) => ReadResult {
            verdict: Ok(()),
            program,
        },
        Err(refusal) => refuse(refusal),
    }
}

// Reads the text that begins with `front` and has `total` bytes. Of a text that is not overlong `front` is all.
pub fn read_counted(front: &[u8], total: usize) -> ReadResult
    ensures { result ≡ counted_of front.now total }
{
    if MAX_TEXT < total {
        return refuse(TextRefusal::Overlong(total));
    }
    read(front)
}
