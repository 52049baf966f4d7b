// What the lists of a rule say of a set of atoms and of levels, each given as a byte for every atom (document 01, "Meaning").
#![tactic(auto)]

ghost use Rattle.std.specs.Prelude.{pred, ◌≤◌, ◌<◌, ◌≡◌, ltb, length, set as put};
ghost use Rattle.std.proofs.Math.Bool.{So};
ghost use Rattle.std.proofs.Props.{props};
ghost use Rattle.lists.specs.Lists.{all};
ghost use Rattle.meaning.specs.Program.{is_atom, none_in};
ghost use Rattle.clause_tables.specs.Tables.{atoms_in, rules_in};
ghost use Rattle.truth_literals.specs.Values.{value_in};
ghost use Rattle.level_lists.specs.Bytes.{level_byte, is_within, list_of, enters};

use clause_cells::Table;
use numbers::{Atom, Rule};

// The byte of atom a.
pub fn byte_of(bytes: &[u8], a: Atom) -> u8
    requires { (0 < a.0) × (a.0 ≤ length bytes.now) }
    ensures { result ≡ level_byte bytes.now a.0 }
{
    bytes[usize::from(a.0) - 1]
}

pub fn put_byte(bytes: &mut [u8], a: Atom, x: u8)
    requires { (0 < a.0) × (a.0 ≤ length bytes.old) }
    ensures { bytes.new ≡ put bytes.old (pred a.0) x }
{
    let i = usize::from(a.0) - 1;
    bytes[i] = x;
}

// Whether each atom of a list has a byte from lo on and below hi.
// Kept as a loop: with `atoms.iter().all(..)` the proof that each atom has a byte, which the closure asks, did not close.
fn all_within<'a>(atoms: &'a [u16], bytes: &'a [u8], lo: u16, hi: u16) -> bool
    requires { So (all (is_atom (length bytes.now)) atoms.now) }
    ensures { result ≡ all (is_within bytes.now lo hi) atoms.now }
{
    for a in atoms {
        let x = u16::from(byte_of(bytes, Atom(*a)));
        if x < lo || hi <= x {
            return false;
        }
    }
    true
}

// Whether each atom of a list is in the set that the bytes hold.
fn all_in<'a>(atoms: &'a [u16], bytes: &'a [u8]) -> bool
    requires { So (all (is_atom (length bytes.now)) atoms.now) }
    ensures { result ≡ all (value_in bytes.now) atoms.now }
{
    all_within(atoms, bytes, 1, 256)
}

// The two lists of a rule's body, by number: its B atoms, and its C atoms.
const POSITIVE: u16 = 0;

const NEGATIVE: u16 = 1;

// The table of a program, and a byte for each of its atoms: a set, or levels.
#[derive(Clone, Copy)]
pub struct AtomBytes<'a> {
    pub table: Table<'a>,
    pub bytes: &'a [u8],
    pub ghost long: { atoms_in table.cells.now ≤ length bytes.now } by { Prim.hlevel props },
}

// A rule of the table, beside such bytes.
#[derive(Clone, Copy)]
pub struct RuleOver<'a> {
    pub atoms: AtomBytes<'a>,
    pub rule: Rule,
    pub ghost some: { 0 < rule.0 } by { Prim.hlevel props },
    pub ghost within: { rule.0 ≤ rules_in atoms.table.cells.now } by { Prim.hlevel props },
}

// Kept as a function for each question: they differ in the list, in the bytes asked for and in what is promised, and share `list` and all_within.
impl<'a> RuleOver<'a> {
    ghost use Rattle.level_lists.specs.Sets.{set_of, rule_of};

    // List k of its body.
    fn list(self, k: u16) -> &'a [u16]
        requires { k ≤ 1 }
        ensures { result.now ≡ list_of (rule_of self.entry) k }
    {
        let table = self.atoms.table;
        let first = table.list_start(self.rule, k);
        let end = table.list_start(self.rule, k + 1);
        table.body(first, end)
    }

    // Whether each C atom has byte 0, whether no B atom has, and whether each B atom has a level below y, or none.
    pub fn negatives_out(self) -> bool
        ensures { result ≡ none_in (value_in self.entry.atoms.bytes.now) (rule_of self.entry).negative }
    {
        all_within(self.list(NEGATIVE), self.atoms.bytes, 0, 1)
    }

    pub fn positives_in(self) -> bool
        ensures { result ≡ all (value_in self.entry.atoms.bytes.now) (rule_of self.entry).positive }
    {
        all_in(self.list(POSITIVE), self.atoms.bytes)
    }

    pub fn positives_below(self, levels: &[u8], y: u8) -> bool
        requires { atoms_in self.atoms.table.cells.now ≤ length levels.now }
        ensures { result ≡ all (λ b. ltb (level_byte levels.now b) y) (rule_of self.entry).positive }
    {
        all_within(self.list(POSITIVE), levels, 0, u16::from(y))
    }

    // Whether the rule is kept, for the set that the bytes hold, and each of its B has a level below i.
    pub fn enters(self, i: u8, levels: &[u8]) -> bool
        requires { atoms_in self.atoms.table.cells.now ≤ length levels.now }
        ensures { result ≡ enters (set_of self.entry.atoms) levels.now i (rule_of self.entry) }
    {
        self.negatives_out() && all_within(self.list(POSITIVE), levels, 1, u16::from(i))
    }
}
