// Filling out a set of the right form: row 18, and what an accepted one writes (document 01, "Check and filling out").
#![tactic(auto)]

ghost use Rattle.std.specs.Prelude.{◌≤◌, ◌≡◌, ◌++◌, length, drop};
ghost use Rattle.lists.specs.Lists.{tab};
ghost use Rattle.encoding.specs.Code.{level_of};
ghost use Rattle.clause_tables.specs.Tables.{vars_in};
ghost use Rattle.level_lists.specs.Sets.{atoms_of, code_of, set_of};
ghost use Rattle.call_fill_rows.specs.FillOut.{bad_place, FillGives, founded_result};

use call_fill_rows::{FillVerdict, Filled};
use call_results::{highest_of, true_count};
use fixed_lines::put_word;
use level_fill::put_filled;
use level_lists::AtomBytes;
use level_stages::{first_difference, stage_levels};
use refusals::FillRefusal;

// The place of the first byte above 1.
pub fn first_bad(set: &[u8]) -> Option<usize>
    ensures { result ≡ bad_place set.now }
{
    set.iter().position(|x| 1 < *x)
}

// Row 18, for the atoms whose byte is not 0, by their levels; if it is not met, the assignment and the levels are written.
// Kept as facts about the lent buffers: they are written, and `AtomBytes` holds bytes that are read.
fn fill_found(
    set: AtomBytes<'_>,
    found: &[u8],
    assignment: &mut [u8],
    levels: &mut [u8],
) -> FillVerdict
    requires { (found.now ≡ tab (atoms_of set) (level_of (code_of set) (set_of set)) ++ drop (atoms_of set) found.now)
        × (vars_in set.table.cells.now ≤ length assignment.old) × (atoms_of set ≤ length levels.old) }
    ensures { FillGives (code_of set.entry) (founded_result (code_of set.entry) (set_of set.entry)) result assignment.old
        assignment.new levels.old levels.new }
{
    let s = set.table.totals().sizes;
    let n = usize::from(s.n);
    if let Some(a) = first_difference(&set.bytes[..n], &found[..n]) {
        return Err(FillRefusal::Unfounded(a));
    }
    put_filled(set, found, assignment);
    put_word(&found[..n], levels);
    Ok(Filled {
        atoms: true_count(&assignment[..n]),
        highest: highest_of(&levels[..n]),
    })
}

// Row 18, where the levels are found; if it is not met, the assignment and the levels are written.
pub fn fill_founded(set: AtomBytes<'_>, assignment: &mut [u8], levels: &mut [u8]) -> FillVerdict
    requires { (vars_in set.table.cells.now ≤ length assignment.old) × (atoms_of set ≤ length levels.old) }
    ensures { FillGives (code_of set.entry) (founded_result (code_of set.entry) (set_of set.entry)) result assignment.old
        assignment.new levels.old levels.new }
{
    let mut found = [0u8; 126];
    stage_levels(set, &mut found);
    fill_found(set, &found, assignment, levels)
}
