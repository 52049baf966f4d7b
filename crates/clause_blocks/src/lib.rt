// Whole blocks of groups 4 and 5, which have most of the clauses, written into a lent buffer: the digits of a variable are found once for all clauses of
// the block that have it, and the clauses are formed from signed literals (document 01, "Clauses, in order"). Each function that writes does so at the front of
// the buffer and returns how many bytes it wrote.
#![tactic(auto)]

ghost use Rattle.std.specs.Prelude.{◌≤◌, ◌<◌, ◌≡◌, true};
ghost use Rattle.encoding.specs.Literal.{var};
ghost use Rattle.encoding.specs.Variables.{level_var};
ghost use Rattle.digits.specs.Bytes.{Room, Wrote};
ghost use Rattle.clause_text.specs.Blocks.{is_blockwise, block_text};
ghost use Rattle.clause_numerals.specs.Numerals.{held};
ghost use Rattle.clause_blocks.specs.Texts.{lower_text, pair_text, pairs_text, long_text, longs_text, next_block_text};
ghost use Rattle.clause_cells.specs.Held.{table_code};

use clause_bits::put_bit;
use clause_chains::chain_bit;
use clause_layout::TableBlock;
use clause_literals::Sizes;
use clause_numerals::{Numeral, put_three, put_two};
use numbers::Atom;

// ---- group 4, atom a; u and v are u(a,i) and v(a,i)

// v(a,j).
// Kept as bounds of an atom and a bit: `NextBlock` holds them for the functions that share them.
fn level_numeral(s: Sizes, a: Atom, j: u16) -> Numeral
    requires { (0 < a.0) × (a.0 ≤ 126) × (0 < j) × (j ≤ 7) }
    ensures { held result ≡ var (level_var s a.0 j) }
{
    let _ = &s.n;
    Numeral::new(s.level_var(a, j))
}

// The two lines of a lower bit, whose variable is x.
fn put_pair(x: Numeral, u: Numeral, v: Numeral, buf: &mut [u8]) -> usize
    requires { Room (pair_text (held x) (held u) (held v)) buf.old }
    ensures { Wrote (pair_text (held x) (held u) (held v)) buf.old buf.new result }
{
    let at = put_three(x, u.opposite(), v, buf);
    at + put_three(x, u, v.opposite(), &mut buf[at..])
}

// Block i of atom a: its lower bits, i - 1 of them, and u(a,i) and v(a,i) or the opposites of both.
#[derive(Clone, Copy)]
struct NextBlock {
    sizes: Sizes,
    atom: Atom,
    lower: u16,
    u: Numeral,
    v: Numeral,
    ghost atom_some: { 0 < atom.0 },
    ghost atom_in: { atom.0 ≤ 126 },
    ghost lower_few: { lower ≤ 7 },
}

impl NextBlock {
    // -v(a,1) to -v(a,i-1), each followed by one space.
    fn put_lower(&self, buf: &mut [u8]) -> usize
        requires { Room (lower_text self.now.sizes self.now.atom.0 self.now.lower) buf.old }
        ensures { Wrote (lower_text self.now.sizes self.now.atom.0 self.now.lower) buf.old buf.new result }
    {
        let mut at: usize = 0;
        for j in 0..self.lower {
            let x = level_numeral(self.sizes, self.atom, j + 1);
            at += x.opposite().put(&mut buf[at..]);
        }
        at
    }

    // The two lines of each of the lower bits.
    fn put_pairs(&self, buf: &mut [u8]) -> usize
        requires { Room (pairs_text self.now.sizes self.now.atom.0 self.now.lower (held self.now.u) (held self.now.v)) buf.old }
        ensures { Wrote (pairs_text self.now.sizes self.now.atom.0 self.now.lower (held self.now.u) (held self.now.v)) buf.old buf.new result }
    {
        let mut at: usize = 0;
        for j in 0..self.lower {
            at += put_pair(
                level_numeral(self.sizes, self.atom, j + 1),
                self.u,
                self.v,
                &mut buf[at..],
            );
        }
        at
    }

    // The line of the lower bits, negated, and of u and v.
    fn put_long(&self, buf: &mut [u8]) -> usize
        requires { Room (long_text self.now.sizes self.now.atom.0 self.now.lower (held self.now.u) (held self.now.v)) buf.old }
        ensures { Wrote (long_text self.now.sizes self.now.atom.0 self.now.lower (held self.now.u) (held self.now.v)) buf.old buf.new result }
    {
        let at = self.put_lower(buf);
        at + put_two(self.u, self.v, &mut buf[at..])
    }

    // This line with u and v negated, and as it is.
    fn put_longs(&self, buf: &mut [u8]) -> usize
        requires { Room (longs_text self.now.sizes self.now.atom.0 self.now.lower (held self.now.u) (held self.now.v)) buf.old }
        ensures { Wrote (longs_text self.now.sizes self.now.atom.0 self.now.lower (held self.now.u) (held self.now.v)) buf.old buf.new result }
    {
        let mut negated = *self;
        negated.u = self.u.opposite();
        negated.v = self.v.opposite();
        let at = negated.put_long(buf);
        at + self.put_long(&mut buf[at..])
    }
}

// Group 4, atom a: the lines of block i.
// Kept as parameters: it is what makes a `NextBlock` of them.
fn put_next_block(s: Sizes, a: Atom, i: u16, buf: &mut [u8]) -> usize
    requires { (0 < a.0) × (a.0 ≤ 126) × (0 < i) × (i ≤ 7) × (Room (next_block_text s a.0 i) buf.old) }
    ensures { Wrote (next_block_text s a.0 i) buf.old buf.new result }
{
    let _ = &s.n;
    let u = Numeral::new(s.next_var(a, i));
    let v = level_numeral(s, a, i);
    let block = NextBlock {
        sizes: s,
        atom: a,
        lower: i - 1,
        u,
        v,
    };
    let at = block.put_pairs(buf);
    at + block.put_longs(&mut buf[at..])
}

// ---- both groups

// The lines of the clauses of a block.
pub fn put_block(b: TableBlock<'_>, buf: &mut [u8]) -> usize
    requires { (is_blockwise b.group ≡ true) × (Room (block_text (table_code b.table) b.group b.item b.number) buf.old) }
    ensures { Wrote (block_text (table_code b.entry.table) b.entry.group b.entry.item b.entry.number) buf.old buf.new result }
{
    let s = b.table.totals().sizes;
    if b.group == 5 {
        return put_bit(b.chain(), chain_bit(s.w, b.number), buf);
    }
    put_next_block(s, Atom(b.item), b.number, buf)
}
