// Reads a program text for a call: into the table of its program, or V and C alone.
#![tactic(auto)]

ghost use Rattle.std.specs.Prelude.{◌≡◌, replicate};
ghost use Rattle.reader.specs.Verdict.{read_of};
ghost use Rattle.reader.specs.Counted.{counted_of};
ghost use Rattle.call_table.specs.Loaded.{Loaded, totals_read};

use clause_tables::{CELLS, Totals};
use clause_tabling::{prepare, program_totals};
use program::empty;
use reader::{MAX_TEXT, read_program};
use refusals::TextRefusal;

// Whether a text is a program; of an accepted one the table is made, in cells that are all 0. A refusal writes nothing.
pub fn load(text: &[u8], table: &mut [u16; CELLS]) -> Result<(), TextRefusal>
    requires { table.old ≡ replicate 4144 0 }
    ensures { Loaded (read_of text.now) result table.old table.new }
{
    let mut program = empty();
    read_program(text, &mut program)?;
    prepare(&program, table);
    Ok(())
}

// The same for a text that begins with `front` and has `total` bytes. Of a text that is not overlong `front` is all.
pub fn load_counted(front: &[u8], total: usize, table: &mut [u16; CELLS]) -> Result<(), TextRefusal>
    requires { table.old ≡ replicate 4144 0 }
    ensures { Loaded (counted_of front.now total) result table.old table.new }
{
    if MAX_TEXT < total {
        return Err(TextRefusal::Overlong(total));
    }
    load(front, table)
}

// The sizes, K, V and C of a text's program, or why it is none.
pub fn read_totals(text: &[u8]) -> Result<Totals, TextRefusal>
    ensures { result ≡ totals_read (read_of text.now) }
{
    let mut p = empty();
    read_program(text, &mut p)?;
    Ok(program_totals(&p))
}
