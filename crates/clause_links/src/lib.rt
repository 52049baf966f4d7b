// Writes into the table of a program the first rule of each atom, and of each rule the next one with the same head, so that the rules of an atom are met
// with no others between.
#![tactic(auto)]

ghost use Rattle.std.specs.Prelude.{◌≤◌, ◌<◌, ◌≡◌, length};
ghost use Rattle.clause_links.specs.Linked.{Unlinked, link_one, linked};

use clause_tables::{CELLS, FIRSTS_AT, LINKS_AT};
use numbers::{Atom, Rule};
use program::head;

// Makes rule r the first one of its head a. The one that was the first becomes the next after r.
fn link(r: Rule, a: Atom, table: &mut [u16; CELLS])
    requires { (0 < r.0) × (r.0 ≤ 500) × (0 < a.0) × (a.0 ≤ 126) }
    ensures { table.new ≡ link_one r.0 a.0 table.old }
{
    let first = FIRSTS_AT + usize::from(a.0) - 1;
    table[LINKS_AT + usize::from(r.0) - 1] = table[first];
    table[first] = r.0;
}

// Links the rules with these heads, from the last to the first.
pub fn add_links(heads: &[u16], table: &mut [u16; CELLS])
    requires { Unlinked (length heads.now) heads.now table.old }
    ensures { table.new ≡ linked heads.now table.old }
{
    for r in (1..=heads.len() as u16).rev() {
        link(Rule(r), head(heads, Rule(r)), &mut *table);
    }
}
