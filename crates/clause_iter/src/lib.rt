// The literals of a clause, one after the other (document 01, "Clauses, in order").
#![tactic(auto)]

ghost use Rattle.std.specs.Prelude.{◌+◌, ◌<◌, ◌≡◌, map};
ghost use Rattle.std.proofs.Props.{props};
ghost use Rattle.encoding.specs.Literal.{literal_number};
ghost use Rattle.clause_tables.specs.Tables.{totals_in};
ghost use Rattle.clause_layout.specs.Clauses.{slots_in, literals_of};
ghost use Rattle.clause_iter.specs.Held.{Held};

use clause_heads::past_empty;
use clause_layout::TableClause;

// The literals of a clause that are left. Slot `done` holds the last one that was given; before the first it is 0. The program has `rules` rules, and the
// clause `slots` slots.
#[derive(Drop)]
pub struct Literals<'a> {
    clause: TableClause<'a>,
    rules: u16,
    slots: u16,
    done: u16,
    ghost rules_are: { rules ≡ (totals_in clause.block.table.cells.now).sizes.m } by { Prim.hlevel props },
    ghost slots_are: { slots ≡ slots_in clause } by { Prim.hlevel props },
    ghost done_held: { 0 < done → Held clause done } by { Prim.hlevel props },
}

impl<'a> Literals<'a> {
    ghost use Rattle.clause_iter.specs.Left.{numbers_left, passed_slots};

    // All literals of a clause.
    pub fn of(clause: TableClause<'a>) -> Self
        ensures { numbers_left result ≡ map literal_number (literals_of clause.entry) }
    {
        let s = clause.block.table.totals().sizes;
        Literals {
            clause,
            rules: s.m,
            slots: clause.slots(),
            done: 0,
        }
    }

    // The slot of the next literal, or the one behind the last slot. The first slot of a clause is never empty.
    fn next_slot(&self) -> u16
        ensures { result ≡ passed_slots self.now + 1 }
    {
        if self.done == 0 {
            return 1;
        }
        let b = self.clause.block;
        past_empty(b.table, self.rules, b.group, b.item, b.number, self.done) + 1
    }
}

impl Iterator for Literals<'_> {
    ghost use Rattle.std.specs.Iterator.{YieldsFirst, item_count};
    ghost use Rattle.clause_iter.specs.Left.{numbers_left};

    type Item = i32;

    ghost next_gives = { YieldsFirst numbers_left };

    ghost remaining = { item_count numbers_left };

    // The next literal. The empty slots before it are passed only now, so that a caller that stops never asks for them.
    fn next(&mut self) -> Option<i32> {
        let l = self.next_slot();
        if self.slots < l {
            return None;
        }
        self.done = l;
        self.clause.slot(l)
    }
}
