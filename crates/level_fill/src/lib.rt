// The filled-out assignment of a set of atoms and their levels, family by family into a lent buffer (document 01, "Check and filling out").
#![tactic(auto)]

ghost use Rattle.std.specs.Prelude.{ℕ, Bool, ◌≤◌, ◌<◌, ◌≡◌, ◌++◌, length, drop};
ghost use Rattle.lists.specs.Lists.{tab};
ghost use Rattle.meaning.specs.Program.{body_true};
ghost use Rattle.encoding.specs.Code.{level_of, code_fill};
ghost use Rattle.digits.specs.Bytes.{Room, Wrote};
ghost use Rattle.clause_tables.specs.Tables.{rules_in, vars_in};
ghost use Rattle.level_lists.specs.Bytes.{level_byte};
ghost use Rattle.level_lists.specs.Sets.{atoms_of, code_of, set_of, rule_of};
ghost use Rattle.answer_offers.specs.Offered.{value_bytes};
ghost use Rattle.level_bits.specs.Bits.{truth_bytes};
ghost use Rattle.level_fill.specs.Values.{TestsBy, atom_bytes, body_bytes, founds_at, founds_bytes, family_of, filled_with};

use level_bits::{put_chains, put_level_values};
use level_lists::{AtomBytes, RuleOver, byte_of};
use numbers::{Atom, Rule};

// Whether the body of a rule is true.
fn body_true(r: RuleOver<'_>) -> bool
    ensures { result ≡ body_true (set_of r.entry.atoms) (rule_of r.entry) }
{
    r.positives_in() && r.negatives_out()
}

// Whether a rule founds its head: its body is true and each of its B has a smaller level than the head.
fn rule_founds(r: RuleOver<'_>, levels: &[u8]) -> bool
    requires { atoms_of r.atoms ≤ length levels.now }
    ensures { result ≡ founds_at (code_of r.entry.atoms) (set_of r.entry.atoms) (level_byte levels.now) r.entry.rule.0 }
{
    let h = r.atoms.table.head(r.rule);
    let y = byte_of(levels, h);
    body_true(r) && r.positives_below(levels, y)
}

// Each function below writes its bytes at the front of the buffer and returns how many they are.

// What a test says of each number from 1 to n.
fn put_truths<F: Fn(u16) -> bool>(n: u16, test: F, buf: &mut [u8]) -> usize
    requires { ((k : ℕ) → 0 < k → k ≤ n → F.pre test k) × (n ≤ length buf.old) }
    ensures { (p : ℕ → Bool) → TestsBy n p (λ k b. F.post test k b) → Wrote (truth_bytes n p) buf.old buf.new result }
{
    for k in 0..n {
        buf[usize::from(k)] = u8::from(test(k + 1));
    }
    usize::from(n)
}

// The values of the atoms.
fn put_atom_values(set: AtomBytes<'_>, buf: &mut [u8]) -> usize
    requires { Room (atom_bytes (atoms_of set) (set_of set)) buf.old }
    ensures { Wrote (atom_bytes (atoms_of set.entry) (set_of set.entry)) buf.old buf.new result }
{
    let s = set.table.totals().sizes;
    put_truths(
        s.n,
        |a|
            requires { (0 < a) × (a ≤ length set.bytes.now) }
        { byte_of(set.bytes, Atom(a)) != 0 },
        buf,
    )
}

// Of each rule, whether its body is true.
fn put_bodies(set: AtomBytes<'_>, buf: &mut [u8]) -> usize
    requires { Room (body_bytes (code_of set) (set_of set)) buf.old }
    ensures { Wrote (body_bytes (code_of set.entry) (set_of set.entry)) buf.old buf.new result }
{
    let s = set.table.totals().sizes;
    put_truths(
        s.m,
        |r|
            requires { (0 < r) × (r ≤ rules_in set.table.cells.now) }
        {
            body_true(RuleOver {
                atoms: set,
                rule: Rule(r),
            })
        },
        buf,
    )
}

// Of each rule, whether it founds its head.
fn put_founds(set: AtomBytes<'_>, levels: &[u8], buf: &mut [u8]) -> usize
    requires { (atoms_of set ≤ length levels.now) × (Room (founds_bytes (code_of set) (set_of set) (level_byte levels.now)) buf.old) }
    ensures { Wrote (founds_bytes (code_of set.entry) (set_of set.entry) (level_byte levels.now)) buf.old buf.new result }
{
    let s = set.table.totals().sizes;
    put_truths(
        s.m,
        |r|
            requires { (0 < r) × (r ≤ rules_in set.table.cells.now) × (atoms_of set ≤ length levels.now) }
        {
            let rule = RuleOver {
                atoms: set,
                rule: Rule(r),
            };
            rule_founds(rule, levels)
        },
        buf,
    )
}

// Family k of the six that follow one another.
fn put_family(set: AtomBytes<'_>, levels: &[u8], k: u16, buf: &mut [u8]) -> usize
    requires { (0 < k) × (k ≤ 6) × (atoms_of set ≤ length levels.now) × (Room (family_of set levels.now k) buf.old) }
    ensures { Wrote (family_of set.entry levels.now k) buf.old buf.new result }
{
    let s = set.table.totals().sizes;
    let n = usize::from(s.n);
    let w = usize::from(s.w);
    match k {
        1 => put_atom_values(set, buf),
        2 => put_bodies(set, buf),
        3 => put_founds(set, levels, buf),
        4 => put_level_values(w, 0, &levels[..n], buf),
        5 => put_level_values(w, 1, &levels[..n], buf),
        _ => {
            let of_atoms = AtomBytes {
                table: set.table,
                bytes: levels,
            };
            put_chains(of_atoms, w, buf)
        }
    }
}

// The filled-out values of the set, for levels of any kind.
fn put_values(set: AtomBytes<'_>, levels: &[u8], buf: &mut [u8]) -> usize
    requires { (atoms_of set ≤ length levels.now) × (vars_in set.table.cells.now ≤ length buf.old) }
    ensures { Wrote (value_bytes (filled_with (code_of set.entry) (set_of set.entry) (level_byte levels.now))) buf.old buf.new result }
{
    let mut to: usize = 0;
    for k in 0..6 {
        to += put_family(set, levels, k + 1, &mut buf[to..]);
    }
    to
}

// Writes the filled-out assignment of the set, whose levels are given, to the first V bytes.
pub fn put_filled(set: AtomBytes<'_>, levels: &[u8], assignment: &mut [u8])
    requires { (levels.now ≡ tab (atoms_of set) (level_of (code_of set) (set_of set)) ++ drop (atoms_of set) levels.now)
        × (vars_in set.table.cells.now ≤ length assignment.old) }
    ensures { assignment.new
        ≡ value_bytes (code_fill (code_of set.entry) (set_of set.entry)) ++ drop (vars_in set.entry.table.cells.now) assignment.old }
{
    put_values(set, levels, assignment);
}
