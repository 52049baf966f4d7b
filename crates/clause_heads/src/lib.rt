// The next rule whose head is an atom, and the slots without a literal that it lets the walk pass (document 01, groups 2 and 7).
#![tactic(auto)]

ghost use Rattle.std.specs.Prelude.{◌+◌, ◌-◌, ◌^◌, ◌≤◌, ◌<◌, ◌≡◌, length, take};
ghost use Rattle.clause_tables.specs.Tables.{heads_in};
ghost use Rattle.clause_heads.specs.NextHead.{among, next_head, past_others, past_empty};

use clause_cells::Table;
use numbers::Atom;

// Whether one of these heads is a. The fold takes no branch, so that eight heads are one comparison of the machine.
fn among(heads: &[u16], a: Atom) -> bool
    ensures { result ≡ among heads.now a.0 }
{
    heads
        .iter()
        .fold(false, |found, head| found | (*head == a.0))
}

// Passes heads from `from` on, eight at a time, as long as none of them is a.
fn past_eights(heads: &[u16], a: Atom, from: usize) -> usize
    requires { (length heads.now ≤ 500) × (from < 2 ^ 16) }
    ensures { (result < 2 ^ 16) × (next_head heads.now a.0 result ≡ next_head heads.now a.0 from) }
{
    let mut i = from;
    while i + 8 <= heads.len() {
        if among(&heads[i..i + 8], a) {
            return i;
        }
        i += 8;
    }
    i
}

// The first index, from `from` on, whose head is a; if there is none, the length, or `from` where that is more.
// Kept as a number where there is none: the walk passes that many heads then too.
pub fn next_head(heads: &[u16], a: Atom, from: u16) -> u16
    requires { length heads.now ≤ 500 }
    ensures { result ≡ next_head heads.now a.0 from }
{
    let first = past_eights(heads, a, usize::from(from));
    for i in first..heads.len() {
        if heads[i] == a.0 {
            return i as u16;
        }
    }
    first.max(heads.len()) as u16
}

// Groups 2 and 7, atom a and m rules: how many slots of its last clause are done once the empty ones after slot l are passed.
fn past_others(table: Table<'_>, m: u16, a: Atom, l: u16) -> u16
    requires { (m ≤ 500) × (0 < l) }
    ensures { result ≡ past_others (take m (heads_in table.entry.cells.now)) a.0 l }
{
    next_head(table.heads(m), a, l - 1) + 1
}

// How many slots of a clause of block i of item a of group g are done once the empty ones after slot l are passed.
pub fn past_empty(table: Table<'_>, m: u16, g: u16, a: u16, i: u16, l: u16) -> u16
    requires { (m ≤ 500) × (0 < l) }
    ensures { result ≡ past_empty m (heads_in table.entry.cells.now) g a i l }
{
    match g {
        2 if i <= m => l,
        2 | 7 => past_others(table, m, Atom(a), l),
        _ => l,
    }
}
