// The level numbers of a set of atoms (document 01, "Meaning"): the stages of its reduct, in one round over the rules for each,
// and the smallest atom where the set and the least model differ.
#![tactic(auto)]

ghost use Rattle.std.specs.Prelude.{◌≤◌, ◌<◌, ◌≡◌, ◌++◌, length, drop};
ghost use Rattle.lists.specs.Lists.{any, tab};
ghost use Rattle.numbers.specs.Nonzero.{nonzero};
ghost use Rattle.encoding.specs.Code.{level_of};
ghost use Rattle.level_lists.specs.Sets.{atoms_of, code_of, set_of, rule_of};
ghost use Rattle.level_stages.specs.Levels.{fires, fired_bytes, level_after, first_difference};

use level_lists::{AtomBytes, RuleOver, byte_of, put_byte};
use numbers::Rule;

// A rule's turn in round i: its head is given level i if it has none and the rule puts it into stage i.
fn put_rule(r: RuleOver<'_>, i: u8, levels: &mut [u8]) -> bool
    requires { atoms_of r.atoms ≤ length levels.old }
    ensures { (result ≡ fires (set_of r.entry.atoms) levels.old i (rule_of r.entry))
        × (levels.new ≡ fired_bytes (set_of r.entry.atoms) i (rule_of r.entry) levels.old) }
{
    let h = r.atoms.table.head(r.rule);
    if byte_of(levels, h) != 0 || !r.enters(i, levels) {
        return false;
    }
    put_byte(levels, h, i);
    true
}

// Round i: each rule has its turn. Whether an atom was given a level.
fn round(set: AtomBytes<'_>, i: u8, levels: &mut [u8]) -> bool
    requires { (0 < i) × (atoms_of set ≤ length levels.old) }
    ensures { (result ≡ any (fires (set_of set.entry) levels.old i) (code_of set.entry).rules)
        × (levels.new
        ≡ tab (atoms_of set.entry) (level_after (set_of set.entry) levels.old i (code_of set.entry).rules)
        ++ drop (atoms_of set.entry) levels.old) }
{
    let mut given = false;
    let s = set.table.totals().sizes;
    for r in 0..s.m {
        let rule = RuleOver {
            atoms: set,
            rule: Rule(r + 1),
        };
        given |= put_rule(rule, i, levels);
    }
    given
}

// The rounds, on bytes that are 0. A round that gives no level is the last.
fn rounds(set: AtomBytes<'_>, levels: &mut [u8])
    requires { (atoms_of set ≤ length levels.old) × (levels.old ≡ tab (atoms_of set) (λ a. 0) ++ drop (atoms_of set) levels.old) }
    ensures { levels.new
        ≡ tab (atoms_of set.entry) (level_of (code_of set.entry) (set_of set.entry)) ++ drop (atoms_of set.entry) levels.old }
{
    let s = set.table.totals().sizes;
    for i in 0..s.n as u8 {
        if !round(set, i + 1, levels) {
            return;
        }
    }
}

// Writes the level of each atom of 1 to n, 0 where no stage holds it.
pub fn stage_levels(set: AtomBytes<'_>, levels: &mut [u8])
    requires { atoms_of set ≤ length levels.old }
    ensures { levels.new
        ≡ tab (atoms_of set.entry) (level_of (code_of set.entry) (set_of set.entry)) ++ drop (atoms_of set.entry) levels.old }
{
    let s = set.table.totals().sizes;
    levels[..usize::from(s.n)].fill(0);
    rounds(set, levels);
}

// The smallest atom that has byte 0 in one of the set and the levels alone.
pub fn first_difference<'a>(set: &'a [u8], levels: &'a [u8]) -> Option<usize>
    requires { length set.now ≡ length levels.now }
    ensures { result ≡ nonzero (first_difference (length set.now) set.now levels.now) }
{
    let place = set
        .iter()
        .zip(levels)
        .position(|(s, l)| (*s == 0) != (*l == 0))?;
    Some(place + 1)
}
