// Truth of whole items of groups 2 and 7 under an assignment: the rules of an atom (document 01, "Check and filling out").
#![tactic(auto)]

ghost use Rattle.std.specs.Prelude.{◌≤◌, ◌<◌, ◌≡◌};
ghost use Rattle.encoding.specs.Code.{code_sizes};
ghost use Rattle.clause_walk.specs.Walk.{heads_of};
ghost use Rattle.clause_slots.specs.SlotNumber.{is_founds};
ghost use Rattle.clause_tables.specs.Tables.{atoms_in};
ghost use Rattle.truth_literals.specs.Valued.{valued_code, valued_in};
ghost use Rattle.truth_heads.specs.Heads.{support_of, head_true, founded_true};

use clause_slots::RuleVar;
use numbers::{Atom, Var};
use truth_literals::{ValuedTable, stands};

// What the rules of an atom say: `each`, that each clause of the atom and such a rule is true; `some`, that some such rule's variable has 1.
#[derive(Clone, Copy)]
pub struct Support {
    pub each: bool,
    pub some: bool,
}

// Groups 2 and 7, atom a: what its rules say, by the variable that each of them has there.
// Kept as bounds of the atom, as in `clause_cells`.
fn support_of(valued: ValuedTable<'_>, a: Atom, which: RuleVar) -> Support
    requires { (0 < a.0) × (a.0 ≤ atoms_in valued.table.cells.now) }
    ensures { result
        ≡ support_of (valued_in valued.entry) (code_sizes (valued_code valued.entry)) (heads_of (valued_code valued.entry)) a.0 (is_founds which) }
{
    let s = valued.table.totals().sizes;
    let mut each = true;
    let mut some = false;
    let mut rule = valued.table.first_rule(a);
    while let Some(r) = rule {
        let x = which.of(s, r);
        each &= stands(true, Var::from(a), valued.values) | stands(false, x, valued.values);
        some |= stands(true, x, valued.values);
        rule = valued.table.next_rule(r);
    }
    Support { each, some }
}

// Group 2, atom a: whether every clause is true.
pub fn head_holds(valued: ValuedTable<'_>, a: Atom) -> bool
    requires { (0 < a.0) × (a.0 ≤ atoms_in valued.table.cells.now) }
    ensures { result ≡ head_true (valued_code valued.entry) (valued_in valued.entry) a.0 }
{
    let x = support_of(valued, a, RuleVar::Body);
    x.each & (stands(false, Var::from(a), valued.values) | x.some)
}

// Group 7, atom a: whether its clause is true.
pub fn founded_holds(valued: ValuedTable<'_>, a: Atom) -> bool
    requires { (0 < a.0) × (a.0 ≤ atoms_in valued.table.cells.now) }
    ensures { result ≡ founded_true (valued_code valued.entry) (valued_in valued.entry) a.0 }
{
    stands(false, Var::from(a), valued.values) | support_of(valued, a, RuleVar::Founds).some
}
