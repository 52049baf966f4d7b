// The bytes of an assignment, one for each variable (document 01, "Check and filling out"; rows 13 and 14): 1 or 0 is a value, 2 says that it has none yet.
// They are copied with the variables completed that have no value, counted, and given the value of a literal. A variable that has no value is read as false
// (document 02, Q-3).
#![tactic(auto)]

ghost use Rattle.std.specs.Prelude.{◌^◌, ◌≤◌, ◌<◌, ◌≡◌, nat_abs, length};
ghost use Rattle.answer_bytes.specs.Bytes.{put_outcome, put_bytes, unset_count, completed_byte, completed, number_value, assigned_for};

use clause_literals::{is_negative, magnitude};
use numbers::Var;
use refusals::CheckRefusal;

// Why a literal is not assigned: its variable is above V, or has a value. The number is the index of its first byte.
#[derive(Clone, Copy, PartialEq, Eq)]
pub enum AssignFault {
    Stray(usize),
    Repeated(usize),
}

// The check's refusal of such a literal, rows 13 and 14.
impl From<AssignFault> for CheckRefusal {
    ghost use Rattle.answer_bytes.specs.Refusals.{refusal_of};

    ghost from_gives = { λ fault result. result ≡ refusal_of fault };

    fn from(fault: AssignFault) -> CheckRefusal {
        match fault {
            AssignFault::Stray(spot) => CheckRefusal::StrayVariable(spot),
            AssignFault::Repeated(spot) => CheckRefusal::RepeatedVariable(spot),
        }
    }
}

// The value of a variable whose byte is b: one that has none is read as false.
fn completed_value(b: u8) -> u8
    ensures { result ≡ completed_byte b }
{
    if b == 2 { 0 } else { b }
}

// Copies `from`, each value completed.
pub fn copy_completed(from: &[u8], values: &mut [u8])
    requires { length from.now ≡ length values.old }
    ensures { values.new ≡ completed from.now }
{
    for (i, byte) in values.iter_mut().enumerate() {
        *byte = completed_value(from[i]);
    }
}

// How many variables have no value.
pub fn unset_count(values: &[u8]) -> usize
    ensures { result ≡ unset_count (length values.now) values.now }
{
    values.iter().filter(|byte| **byte == 2).count()
}

// The value that a literal gives its variable.
fn literal_value(x: i32) -> u8
    ensures { result ≡ number_value x }
{
    u8::from(!is_negative(x))
}

// Gives variable k a value, unless it has one; the first byte of its literal has the index `first`.
fn put_variable(k: Var, value: u8, first: usize, values: &mut [u8]) -> Result<(), AssignFault>
    requires { (0 < k.0) × (k.0 ≤ length values.old) }
    ensures { (result ≡ assigned_for (put_outcome (length values.old) k.0 first values.old))
        × (values.new ≡ put_bytes (length values.old) k.0 value values.old) }
{
    let i = usize::from(k.0) - 1;
    if values[i] != 2 {
        return Err(AssignFault::Repeated(first));
    }
    values[i] = value;
    Ok(())
}

// Assigns one literal, whose first byte has the index `first`.
// Kept as a bound of the slice: it is lent to be written, and a struct that holds `&mut` would be taken apart for each call.
pub fn put_value(x: i32, first: usize, values: &mut [u8]) -> Result<(), AssignFault>
    requires { (0 < nat_abs x) × (nat_abs x < 2 ^ 31) × (length values.old ≤ 9890) }
    ensures { (result ≡ assigned_for (put_outcome (length values.old) (nat_abs x) first values.old))
        × (values.new ≡ put_bytes (length values.old) (nat_abs x) (number_value x) values.old) }
{
    let k = magnitude(x) as usize;
    if values.len() < k {
        return Err(AssignFault::Stray(first));
    }
    put_variable(Var(k as u16), literal_value(x), first, values)
}
