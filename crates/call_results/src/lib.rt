// The levels that an accepted assignment shows, and the two numbers that an accepted call returns (document 01, "Check and filling out").
#![tactic(auto)]

ghost use Rattle.std.specs.Prelude.{◌+◌, ◌*◌, ◌≤◌, ◌<◌, ◌≡◌, ◌++◌, length, drop};
ghost use Rattle.lists.specs.Lists.{tab, highest};
ghost use Rattle.encoding.specs.Fill.{counter};
ghost use Rattle.truth_clauses.specs.Truth.{value_in};
ghost use Rattle.call_results.specs.Results.{true_count, level_byte};

use clause_literals::Sizes;
use numbers::Atom;
use truth_literals::is_true;

// The counter of atom a: 2^(i - 1) for each true bit v(a,i), added up.
fn counter_of(s: Sizes, assignment: &[u8], a: Atom) -> u8
    requires { (0 < a.0) × (a.0 ≤ s.n) × (s.n + 2 * s.m + s.n * s.w ≤ length assignment.now) }
    ensures { result ≡ counter s (value_in assignment.now) a.0 }
{
    let w = s.w;
    let mut x: u8 = 0;
    let mut power: u8 = 1;
    for i in 0..w {
        if is_true(assignment, s.level_var(a, i + 1)) {
            x += power;
        }
        power *= 2;
    }
    x
}

// Writes the counters of the atoms 1 to n at the front of the buffer.
pub fn put_counters(s: Sizes, assignment: &[u8], levels: &mut [u8])
    requires { (s.n + 2 * s.m + s.n * s.w ≤ length assignment.now) × (s.n ≤ length levels.old) }
    ensures { levels.new ≡ tab s.n (counter s (value_in assignment.now)) ++ drop s.n levels.old }
{
    let n = s.n;
    for a in 0..n {
        levels[usize::from(a)] = counter_of(s, assignment, Atom(a + 1));
    }
}

// How many atoms are true, by their values.
pub fn true_count(atoms: &[u8]) -> usize
    ensures { result ≡ true_count (length atoms.now) atoms.now }
{
    atoms.iter().filter(|b| **b != 0).count()
}

// The highest of the levels, 0 if there is none above.
pub fn highest_of(levels: &[u8]) -> usize
    ensures { result ≡ highest (length levels.now) (level_byte levels.now) }
{
    levels.iter().fold(0, |x, b| x.max(usize::from(*b)))
}
