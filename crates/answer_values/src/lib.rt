// Reads a solver answer in one pass: decides its form and assigns its literals to a lent buffer, one byte for each variable (document 01, "Check and filling
// out"; rows 11 to 14). A variable that no literal names is read as false (document 02, Q-3).
#![tactic(auto)]

ghost use Rattle.std.specs.Prelude.{◌^◌, ◌≤◌, ◌<◌, ◌≡◌, nat_abs, length};
ghost use Rattle.answer_reader.specs.Results.{model_from, form_of};
ghost use Rattle.answer_bytes.specs.Bytes.{put_outcome, put_bytes, unset_count, number_value, assigned_for};
ghost use Rattle.answer_values.specs.Assign.{literals_from, assigned_of, assigned_bytes, next_answer, next_bytes};
ghost use Rattle.answer_values.specs.Assign.{read_outcome, read_bytes, assumed_by, values_read, answer_read, PassesNext};

use answer_bytes::{AssignFault, put_value, unset_count};
use answer_quick::literals_from;
use answer_reader::{AnswerFault, Token, close, closed_form, next_from, status};

// How the literals of an answer were assigned: how many variables none of them names, 0 if the form is refused, or the fault of the first that is not assigned.
pub type ValuesRead = Result<usize, AssignFault>;

// The form of an answer, the index where its status line ends or why it offers no model, and how its literals were assigned, whatever the form.
#[derive(Clone, Copy, PartialEq, Eq)]
pub struct AnswerRead {
    pub form: Result<usize, AnswerFault>,
    pub values: ValuesRead,
}

// How many variables have no value, if the form is that of a model and each literal was assigned, as `outcome` says.
fn values_read(
    form: Result<usize, AnswerFault>,
    outcome: Result<(), AssignFault>,
    values: &[u8],
) -> ValuesRead
    ensures { result ≡ values_read outcome (assumed_by form (unset_count (length values.now) values.now)) }
{
    outcome?;
    match form {
        Ok(_) => Ok(unset_count(values)),
        Err(_) => Ok(0),
    }
}

// What is told of an answer of this form, whose literals were assigned as `outcome` says.
fn answer_read(
    form: Result<usize, AnswerFault>,
    outcome: Result<(), AssignFault>,
    values: &[u8],
) -> AnswerRead
    ensures { (result.form ≡ form)
        × (result.values ≡ values_read outcome (assumed_by result.form (unset_count (length values.now) values.now)))
        × (answer_read result.form result.values ≡ answer_read form (values_read outcome (unset_count (length values.now) values.now))) }
{
    AnswerRead {
        form,
        values: values_read(form, outcome, values),
    }
}

// Assigns one literal if each literal before it was assigned, as `outcome` says; else the values stay.
fn put_next_value(
    outcome: Result<(), AssignFault>,
    x: i32,
    first: usize,
    values: &mut [u8],
) -> Result<(), AssignFault>
    requires { (0 < nat_abs x) × (nat_abs x < 2 ^ 31) × (length values.old ≤ 9890) }
    ensures { (result ≡ next_answer outcome (put_outcome (length values.old) (nat_abs x) first values.old))
        × (values.new ≡ next_bytes outcome (put_bytes (length values.old) (nat_abs x) (number_value x) values.old) values.old) }
{
    match outcome {
        Ok(()) => put_value(x, first, values),
        Err(fault) => Err(fault),
    }
}

// Passes over the literals that stand in their common form from position `from` on and assigns them, if each literal before them was assigned, as `outcome`
// says.
fn pass_literals(
    outcome: Result<(), AssignFault>,
    answer: &[u8],
    from: usize,
    values: &mut [u8],
) -> usize
    requires { from ≤ length answer.now }
    ensures { PassesNext outcome answer.now (length values.old) from values.old result values.new }
{
    match outcome {
        Ok(()) => literals_from(answer, from, values),
        Err(_) => from,
    }
}

// Reads the answer from position `from` on to its end: its form, and its literals, assigned up to literal 0 or the first that is stray or repeated.
fn read_from(answer: &[u8], from: usize, values: &mut [u8]) -> AnswerRead
    requires { (from ≤ length answer.now) × (length values.old ≤ 9890) }
    ensures { (result.form ≡ model_from from from answer.now)
        × (result.values ≡ values_read (assigned_for (assigned_of (length values.old) (literals_from answer.now from) values.old))
        (assumed_by result.form (unset_count (length values.old) values.new)))
        × (answer_read result.form result.values ≡ answer_read (model_from from from answer.now)
        (values_read (assigned_for (assigned_of (length values.old) (literals_from answer.now from) values.old)) (unset_count (length values.old) values.new)))
        × (values.new ≡ assigned_bytes (length values.old) (literals_from answer.now from) values.old) }
{
    let mut p = from;
    let mut outcome = Ok(());
    loop {
        p = pass_literals(outcome, answer, p, values);
        let n = next_from(answer, p);
        match n {
            Ok(Token::Literal(x, first, behind)) => {
                outcome = put_next_value(outcome, x, first, values);
                p = behind;
            }
            Ok(Token::Last(behind)) => {
                let form = closed_form(from, close(answer, behind));
                return answer_read(form, outcome, values);
            }
            Err(spot) => return answer_read(Err(AnswerFault::Malformed(spot)), outcome, values),
        }
    }
}

// Reads the whole answer. If its status is SATISFIABLE, its literals are assigned on the way; else the values stay. The variables that no literal names keep
// their 2; of a model they are counted. How literals were assigned is said of a refused form too.
pub fn read_form(answer: &[u8], values: &mut [u8]) -> AnswerRead
    requires { length values.old ≤ 9890 }
    ensures { (result.form ≡ form_of answer.now)
        × (result.values ≡ values_read (assigned_for (read_outcome (length values.old) answer.now values.old))
        (assumed_by result.form (unset_count (length values.old) values.new)))
        × (answer_read result.form result.values ≡ answer_read (form_of answer.now)
        (values_read (assigned_for (read_outcome (length values.old) answer.now values.old)) (unset_count (length values.old) values.new)))
        × (values.new ≡ read_bytes (length values.old) answer.now values.old) }
{
    match status(answer) {
        Ok(end) => read_from(answer, end, values),
        Err(fault) => answer_read(Err(fault), Ok(()), values),
    }
}
