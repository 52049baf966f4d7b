// The lines of a model, written into a lent buffer (document 01, "Programs"; document 02, Q-3).
#![tactic(auto)]

ghost use Rattle.std.specs.Prelude.{ℕ, ◌≤◌, ◌<◌, ◌≡◌, ◌++◌, length, get_or};
ghost use Rattle.std.proofs.Props.{props};
ghost use Rattle.lists.specs.Ascii.{ascii};
ghost use Rattle.digits.specs.Bytes.{Room, Wrote};
ghost use Rattle.truth_literals.specs.Values.{value_in};
ghost use Rattle.checker_model.specs.Model.{NumbersBy, NumbersFit, chosen, true_atom_list, numbers_text, levels_text, listed_text, shown_text, model_text, assumed_text, shown_model};

use digits::put_decimal;
use fixed_lines::{put_closing, put_word};

// The values of the atoms of a model, and their levels, a byte for each atom.
#[derive(Clone, Copy)]
pub struct ModelBytes<'a> {
    pub atoms: &'a [u8],
    pub levels: &'a [u8],
    pub ghost even: { length atoms.now ≡ length levels.now } by { Prim.hlevel props },
}

// Writes the number x at the front of the buffer, after one space where bytes of its list stand before it, and returns how many bytes they are.
fn put_listed(before: usize, x: usize, buf: &mut [u8]) -> usize
    requires { Room (listed_text before x) buf.old }
    ensures { Wrote (listed_text before x) buf.old buf.new result }
{
    if before == 0 {
        put_decimal(x, buf)
    } else {
        buf[0] = b' ';
        1 + put_decimal(x, &mut buf[1..])
    }
}

// Writes the number x as the next one of its list if it is shown, nothing else, and returns how many bytes that is.
fn put_shown(shown: bool, before: usize, x: usize, buf: &mut [u8]) -> usize
    requires { Room (shown_text shown before x) buf.old }
    ensures { Wrote (shown_text shown before x) buf.old buf.new result }
{
    if shown { put_listed(before, x, buf) } else { 0 }
}

// Writes what `number` gives of each true atom, as one list.
fn put_of_true<F: Fn(usize) -> usize>(atoms: &[u8], number: F, buf: &mut [u8]) -> usize
    requires { ((k : ℕ) → 0 < k → k ≤ length atoms.now → F.pre number k)
        × (NumbersFit (length atoms.now) (value_in atoms.now) (λ k x. F.post number k x) buf.old) }
    ensures { (f : ℕ → ℕ) → NumbersBy (length atoms.now) f (λ k x. F.post number k x)
        → Wrote (numbers_text (chosen (value_in atoms.now) f (length atoms.now))) buf.old buf.new result }
{
    let mut to = 0;
    for (a, value) in atoms.iter().enumerate() {
        let x = number(a + 1);
        to += put_shown(*value != 0, to, x, &mut buf[to..]);
    }
    to
}

// Writes "(assumed COUNT)" and byte 10 at the front of the buffer, nothing if the count is 0, and returns how many bytes they are.
fn put_assumed(count: usize, buf: &mut [u8]) -> usize
    requires { Room (assumed_text count) buf.old }
    ensures { Wrote (assumed_text count) buf.old buf.new result }
{
    if count == 0 {
        0
    } else {
        let to = put_word(b"(assumed ", &mut *buf);
        to + put_closing(count, &mut buf[to..])
    }
}

// A law: what a slice of bytes holds is below 256.
fn bytes_small(bytes: &[u8])
    ensures { (i : ℕ) → get_or bytes.now i 0 < 256 }
{}

impl<'a> ModelBytes<'a> {
    // Writes "(model (" and the true atoms.
    fn put_atoms(self, buf: &mut [u8]) -> usize
        requires { Room (ascii "(model (" ++ numbers_text (true_atom_list (length self.atoms.now) self.atoms.now)) buf.old }
        ensures { Wrote (ascii "(model (" ++ numbers_text (true_atom_list (length self.entry.atoms.now) self.entry.atoms.now))
            buf.old buf.new result }
    {
        let to = put_word(b"(model (", &mut *buf);
        to + put_of_true(self.atoms, |a| a, &mut buf[to..])
    }

    // Writes ") (" and their levels.
    fn put_levels(self, buf: &mut [u8]) -> usize
        requires { Room (ascii ") (" ++ levels_text (length self.atoms.now) self.atoms.now self.levels.now) buf.old }
        ensures { Wrote (ascii ") (" ++ levels_text (length self.entry.atoms.now) self.entry.atoms.now self.entry.levels.now)
            buf.old buf.new result }
    {
        let levels = self.levels;
        let to = put_word(b") (", &mut *buf);
        to + put_of_true(
            self.atoms,
            |a|
                requires { (0 < a) × (a ≤ length levels.now) }
            { usize::from(levels[a - 1]) },
            &mut buf[to..],
        )
    }

    // Writes the same, "))" and byte 10.
    fn put_levels_closed(self, buf: &mut [u8]) -> usize
        requires { Room ((ascii ") (" ++ levels_text (length self.atoms.now) self.atoms.now self.levels.now) ++ ascii "))\n") buf.old }
        ensures { Wrote ((ascii ") (" ++ levels_text (length self.entry.atoms.now) self.entry.atoms.now self.entry.levels.now)
            ++ ascii "))\n") buf.old buf.new result }
    {
        let to = self.put_levels(&mut *buf);
        to + put_word(b"))\n", &mut buf[to..])
    }

    // Writes "(model (atoms) (levels))" and byte 10 at the front of the buffer and returns how many bytes they are.
    fn put_model(self, buf: &mut [u8]) -> usize
        requires { Room (model_text (length self.atoms.now) self.atoms.now self.levels.now) buf.old }
        ensures { Wrote (model_text (length self.entry.atoms.now) self.entry.atoms.now self.entry.levels.now) buf.old buf.new result }
    {
        let to = self.put_atoms(&mut *buf);
        to + self.put_levels_closed(&mut buf[to..])
    }

    // Writes the line of the variables that were assumed, if there are any, then the line of the model.
    pub fn put_shown_model(self, assumed: usize, buf: &mut [u8]) -> usize
        requires { (length self.atoms.now ≤ 126) × (1131 ≤ length buf.old) }
        ensures { Wrote (shown_model (length self.entry.atoms.now) assumed self.entry.atoms.now self.entry.levels.now)
            buf.old buf.new result }
    {
        bytes_small(self.levels);
        let to = put_assumed(assumed, &mut *buf);
        to + self.put_model(&mut buf[to..])
    }
}
