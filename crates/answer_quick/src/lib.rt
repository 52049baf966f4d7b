// Literals of a solver answer in their common form, read and assigned at once: a space, a minus or none, one to four digits of which the first is not 0, and a
// byte that is no digit. What stands otherwise is left to the readers of the crates answer_words and answer_reader.
#![tactic(auto)]

ghost use Rattle.std.specs.Prelude.{ℕ, ◌+◌, ◌*◌, ◌-◌, ◌≤◌, ◌≡◌, List, ◌∷◌, length};
ghost use Rattle.std.specs.Int.{from_bool};
ghost use Rattle.answer_quick.specs.Quick.{first_test, some_quick, quick_of, quick_at, Passes};

use reader_form::is_digit;

// A literal with its space: its variable, whether it has a minus, and how many bytes it has.
#[derive(Clone, Copy, PartialEq, Eq)]
pub struct Quick {
    pub value: usize,
    pub minus: bool,
    pub size: usize,
}

// Whether b is a digit from 1 to 9.
#[tactic(auto, unfolding(crate::specs::Quick::first_test))]
fn is_first(b: u8) -> bool
    ensures { result ≡ first_test b }
{
    matches!(b, b'1'..=b'9')
}

// The number with one more digit.
fn longer(k: usize, b: u8) -> usize
    requires { (k ≤ 999) × (48 ≤ b) }
    ensures { result ≡ k * 10 + (b - 48) }
{
    k * 10 + usize::from(b - b'0')
}

// The literal whose digits begin with the bytes a to e, whatever follows them; none where it isn't in the common form.
fn quick_digits(a: u8, b: u8, c: u8, d: u8, e: u8, minus: bool) -> Option<Quick>
    ensures { (u : List ℕ) → result ≡ some_quick (quick_of (from_bool minus) (a ∷ b ∷ c ∷ d ∷ e ∷ u)) }
{
    if !is_first(a) {
        return None;
    }
    let sign = usize::from(minus);
    let w = longer(0, a);
    if !is_digit(b) {
        return Some(Quick {
            value: w,
            minus,
            size: sign + 2,
        });
    }
    let x = longer(w, b);
    if !is_digit(c) {
        return Some(Quick {
            value: x,
            minus,
            size: sign + 3,
        });
    }
    let y = longer(x, c);
    if !is_digit(d) {
        return Some(Quick {
            value: y,
            minus,
            size: sign + 4,
        });
    }
    if is_digit(e) {
        return None;
    }
    Some(Quick {
        value: longer(y, d),
        minus,
        size: sign + 5,
    })
}

// The literal that stands at `at` in the common form.
fn quick_at(answer: &[u8], at: usize) -> Option<Quick>
    requires { at + 9 ≤ length answer.now }
    ensures { result ≡ some_quick (quick_at answer.now at) }
{
    if answer[at] != b' ' {
        return None;
    }
    let minus = answer[at + 1] == b'-';
    let p = at + 1 + usize::from(minus);
    quick_digits(
        answer[p],
        answer[p + 1],
        answer[p + 2],
        answer[p + 3],
        answer[p + 4],
        minus,
    )
}

// Assigns the literals from position `from` on, up to the first that does not stand in the common form, or is of a variable that has no byte or has a value: its
// position.
// Kept with a position in the answer: the answer's other bytes are read behind it by the loop that calls.
pub fn literals_from(answer: &[u8], from: usize, values: &mut [u8]) -> usize
    requires { from ≤ length answer.now }
    ensures { Passes answer.now (length values.old) from values.old result values.new }
{
    let mut p = from;
    while 9 <= answer.len() - p {
        let Some(q) = quick_at(answer, p) else {
            return p;
        };
        if values.len() < q.value {
            return p;
        }
        let i = q.value - 1;
        if values[i] != 2 {
            return p;
        }
        values[i] = u8::from(!q.minus);
        p += q.size;
    }
    p
}
