// Truth of all clauses of an item under an assignment: of a rule, an atom or a pair in a clause group (document 01, "Check and filling out"; document 02, Q-2).
#![tactic(auto)]

ghost use Rattle.std.specs.Prelude.{◌≤◌, ◌<◌, ◌≡◌};
ghost use Rattle.clause_walk.specs.Walk.{group_count, item_count};
ghost use Rattle.truth_literals.specs.Items.{item_true};
ghost use Rattle.truth_literals.specs.Valued.{valued_code, valued_in};

use clause_layout::span;
use numbers::{Atom, Pair, Rule};
use truth_heads::{founded_holds, head_holds};
use truth_levels::{next_holds, pair_holds, zero_holds};
use truth_literals::ValuedTable;
use truth_rules::{body_holds, rule_holds};

// Group 1, rule r: whether every clause is true.
fn body_item(valued: ValuedTable<'_>, r: Rule) -> bool
    requires { (0 < r.0) × (r.0 ≤ item_count (valued_code valued) 1) }
    ensures { result ≡ item_true (valued_code valued.entry) (valued_in valued.entry) 1 r.0 }
{
    let first = valued.table.list_start(r, 0);
    let middle = valued.table.list_start(r, 1);
    let end = valued.table.list_start(r, 2);
    let t = valued.table.totals().sizes.body_var(r);
    body_holds(
        t,
        valued.table.body(first, end),
        usize::from(middle - first),
        valued.values,
    )
}

// Group 5, pair k: whether every clause is true.
fn pair_item(valued: ValuedTable<'_>, k: Pair) -> bool
    requires { (0 < k.0) × (k.0 ≤ item_count (valued_code valued) 5) }
    ensures { result ≡ item_true (valued_code valued.entry) (valued_in valued.entry) 5 k.0 }
{
    let b = valued.table.pair_body(k);
    let h = valued.table.pair_head(k);
    pair_holds(valued.table.totals().sizes, k, b, h, valued.values)
}

// Group 6, rule r: whether every clause is true.
fn rule_item(valued: ValuedTable<'_>, r: Rule) -> bool
    requires { (0 < r.0) × (r.0 ≤ item_count (valued_code valued) 6) }
    ensures { result ≡ item_true (valued_code valued.entry) (valued_in valued.entry) 6 r.0 }
{
    let h = valued.table.head(r);
    let k = valued.table.pairs_before(r);
    let b = span(valued.table, r, 1);
    rule_holds(valued.table.totals().sizes, r, h, k, b, valued.values)
}

// Item a of group g: whether every clause is true.
pub fn item_holds(valued: ValuedTable<'_>, g: u16, a: u16) -> bool
    requires { (0 < g) × (g ≤ group_count) × (0 < a) × (a ≤ item_count (valued_code valued) g) }
    ensures { result ≡ item_true (valued_code valued.entry) (valued_in valued.entry) g a }
{
    match g {
        1 => body_item(valued, Rule(a)),
        2 => head_holds(valued, Atom(a)),
        3 => zero_holds(valued.table.totals().sizes, Atom(a), valued.values),
        4 => next_holds(valued.table.totals().sizes, Atom(a), valued.values),
        5 => pair_item(valued, Pair(a)),
        6 => rule_item(valued, Rule(a)),
        _ => founded_holds(valued, Atom(a)),
    }
}
