// The lines of the clause file from a place on, into a lent buffer (document 01, "Clauses, in order").
#![tactic(auto)]

ghost use Rattle.std.specs.Prelude.{suc, ◌+◌, ◌≤◌, ◌<◌, ◌≡◌, true, leb, length};
ghost use Rattle.digits.specs.Bytes.{Room, Wrote};
ghost use Rattle.clause_walk.specs.Walk.{group_count, item_count};
ghost use Rattle.clause_tables.specs.Tables.{clauses_in};
ghost use Rattle.clause_places.specs.Places.{place_at};
ghost use Rattle.clause_counts.specs.Counts.{item_size};
ghost use Rattle.clause_text.specs.Blocks.{is_blockwise};
ghost use Rattle.clause_runs.specs.Lines.{code_line, code_part, code_run_bytes};
ghost use Rattle.clause_runs.specs.Items.{item_text};
ghost use Rattle.clause_runs.specs.Taken.{Taken};
ghost use Rattle.clause_cells.specs.Held.{table_code};

use clause_blocks::put_block;
use clause_cells::Table;
use clause_counts::fixed_size;
use clause_layout::{TableBlock, block_count};
use clause_places::{Coordinates, Place, TableLine};
use clause_text::{clause_length, is_blockwise, put_clause};
use fixed_lines::{header_length, put_header};

// No line has more bytes, nor do the lines of an item of groups 4 and 5.
const LONGEST_LINE: usize = 3008;

// A run of lines as far as it fits: how many lines, their bytes, and the place of the line after them.
#[derive(Clone, Copy)]
pub struct RunPart {
    pub lines: usize,
    pub bytes: usize,
    pub place: Place,
}

// The length of a line.
pub fn line_length(line: TableLine<'_>) -> usize
    ensures { result ≡ length (code_line (table_code line.entry.table) line.entry.place.number) }
{
    if line.place.number == 0 {
        let t = line.table.totals();
        return header_length(t.vars, t.clauses);
    }
    clause_length(line.clause())
}

// Writes a line at the front of the buffer and returns its length.
// Kept as the room that the buffer has: it is of the line and a lent buffer that is written.
pub fn put_line(line: TableLine<'_>, buf: &mut [u8]) -> usize
    requires { Room (code_line (table_code line.table) line.place.number) buf.old }
    ensures { Wrote (code_line (table_code line.entry.table) line.entry.place.number) buf.old buf.new result }
{
    if line.place.number == 0 {
        let t = line.table.totals();
        return put_header(t.vars, t.clauses, buf);
    }
    put_clause(line.clause(), buf)
}

// Whether a line fits `room` bytes.
fn fits(line: TableLine<'_>, room: usize) -> bool
    ensures { result ≡ leb (length (code_line (table_code line.entry.table) line.entry.place.number)) room }
{
    LONGEST_LINE <= room || line_length(line) <= room
}

// The lines of item a of group g, 4 or 5, block by block.
fn put_item(table: Table<'_>, g: u16, a: u16, buf: &mut [u8]) -> usize
    requires { (0 < g) × (g ≤ group_count) × (0 < a) × (a ≤ item_count (table_code table) g) × (is_blockwise g ≡ true)
        × (Room (item_text (table_code table) g a) buf.old) }
    ensures { Wrote (item_text (table_code table.entry) g a) buf.old buf.new result }
{
    let n = block_count(table.totals().sizes, g);
    let mut at: usize = 0;
    for i in 0..n {
        let block = TableBlock {
            table,
            group: g,
            item: a,
            number: i + 1,
        };
        at += put_block(block, &mut buf[at..]);
    }
    at
}

// The place of the clause after the k clauses of the item of groups 4 and 5 that begins at a line, by that of the last of them.
fn after_item(line: TableLine<'_>, k: usize) -> Place
    requires { (is_blockwise line.place.coordinates.group ≡ true) × (line.place.coordinates.block ≡ 1) × (line.place.coordinates.clause ≡ 1)
        × (k ≡ item_size (table_code line.table) line.place.coordinates.group line.place.coordinates.item) }
    ensures { result ≡ place_at (table_code line.entry.table) (line.entry.place.number + k) }
{
    let s = line.place.coordinates;
    let block = TableBlock {
        table: line.table,
        group: s.group,
        item: s.item,
        number: s.blocks + 1,
    };
    let last = TableLine {
        table: line.table,
        place: Place {
            number: line.place.number + (k - 1),
            coordinates: Coordinates {
                block: block.number,
                clause: block.size(),
                clauses: 0,
                blocks: 0,
                ..s
            },
        },
    };
    last.next()
}

// Writes the lines of the item of groups 4 and 5 that begins at a line.
fn put_whole_item(line: TableLine<'_>, buf: &mut [u8]) -> RunPart
    requires { (is_blockwise line.place.coordinates.group ≡ true) × (line.place.coordinates.block ≡ 1) × (line.place.coordinates.clause ≡ 1)
        × (3008 ≤ length buf.old) }
    ensures { Taken (table_code line.entry.table) line.entry.place.number result buf.old buf.new }
{
    let at = line.place.coordinates;
    let s = line.table.totals().sizes;
    let k = fixed_size(usize::from(s.w), at.group);
    let bytes = put_item(line.table, at.group, at.item, buf);
    RunPart {
        lines: k,
        bytes,
        place: after_item(line, k),
    }
}

// Writes a line.
fn put_one(line: TableLine<'_>, buf: &mut [u8]) -> RunPart
    requires { Room (code_line (table_code line.table) line.place.number) buf.old }
    ensures { Taken (table_code line.entry.table) line.entry.place.number result buf.old buf.new }
{
    let bytes = put_line(line, buf);
    RunPart {
        lines: 1,
        bytes,
        place: line.next(),
    }
}

// Writes a line, which fits, or the lines of the whole item that begins there.
fn put_some(line: TableLine<'_>, buf: &mut [u8]) -> RunPart
    requires { Room (code_line (table_code line.table) line.place.number) buf.old }
    ensures { Taken (table_code line.entry.table) line.entry.place.number result buf.old buf.new }
{
    let s = line.place.coordinates;
    if LONGEST_LINE <= buf.len() && s.clause == 1 && s.block == 1 && is_blockwise(s.group) {
        return put_whole_item(line, buf);
    }
    put_one(line, buf)
}

// Writes as many whole lines as fit the buffer, from the line at place c on.
pub fn put_lines(table: Table<'_>, c: Place, buf: &mut [u8]) -> RunPart
    requires { (c ≡ place_at (table_code table) c.number) × (c.number ≤ suc (clauses_in table.cells.now)) }
    ensures { (result ≡ code_part (table_code table.entry) c.number (length buf.old))
        × (buf.new ≡ code_run_bytes (table_code table.entry) c.number buf.old) }
{
    let t = table.totals();
    let mut run = RunPart {
        lines: 0,
        bytes: 0,
        place: c,
    };
    while run.place.number <= t.clauses {
        let line = TableLine {
            table,
            place: run.place,
        };
        if !fits(line, buf.len() - run.bytes) {
            return run;
        }
        let part = put_some(line, &mut buf[run.bytes..]);
        run = RunPart {
            lines: run.lines + part.lines,
            bytes: run.bytes + part.bytes,
            place: part.place,
        };
    }
    run
}
