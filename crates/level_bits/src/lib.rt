// The bits of levels and the chains that compare them, into a lent buffer (document 01, "Check and filling out").
#![tactic(auto)]

ghost use Rattle.std.specs.Prelude.{◌≤◌, ◌<◌, length};
ghost use Rattle.digits.specs.Bytes.{Room, Wrote};
ghost use Rattle.clause_tables.specs.Tables.{totals_in};
ghost use Rattle.level_lists.specs.Bytes.{level_byte};
ghost use Rattle.level_lists.specs.Sets.{code_of, levels_of};
ghost use Rattle.level_bits.specs.Bits.{bit_bytes, level_bytes, less_bytes, pair_bytes, pair_at_bytes, chain_bytes};

use level_lists::{AtomBytes, byte_of};
use numbers::{Atom, Pair};

// Each function below writes its bytes at the front of the buffer and returns how many they are.

// The w lowest bits of x.
fn put_bits(w: usize, x: u16, buf: &mut [u8]) -> usize
    requires { Room (bit_bytes w x) buf.old }
    ensures { Wrote (bit_bytes w x) buf.old buf.new result }
{
    let mut rest = x;
    for i in 0..w {
        buf[i] = (rest % 2) as u8;
        rest /= 2;
    }
    w
}

// For i from 1 to w, whether the lowest i bits of x are below those of y.
fn put_less(w: usize, x: u16, y: u16, buf: &mut [u8]) -> usize
    requires { Room (less_bytes w x y) buf.old }
    ensures { Wrote (less_bytes w x y) buf.old buf.new result }
{
    let mut p = x;
    let mut q = y;
    let mut less: u8 = 0;
    for i in 0..w {
        if p % 2 != q % 2 {
            less = (q % 2) as u8;
        }
        buf[i] = less;
        p /= 2;
        q /= 2;
    }
    w
}

// The two chains of a pair: x is the level of its body atom, y that of its head.
fn put_pair_values(w: usize, x: u16, y: u16, buf: &mut [u8]) -> usize
    requires { (x < 256) × (Room (pair_bytes w x y) buf.old) }
    ensures { Wrote (pair_bytes w x y) buf.old buf.new result }
{
    let to = put_less(w, x, y, buf);
    to + put_less(w, x + 1, y, &mut buf[to..])
}

// The bits of the level of each atom with d more: its level, or its next.
pub fn put_level_values(w: usize, d: u16, levels: &[u8], buf: &mut [u8]) -> usize
    requires { (d ≤ 1) × (Room (level_bytes (length levels.now) w d (level_byte levels.now)) buf.old) }
    ensures { Wrote (level_bytes (length levels.now) w d (level_byte levels.now)) buf.old buf.new result }
{
    let mut to: usize = 0;
    for level in levels {
        let x = u16::from(*level);
        to += put_bits(w, x + d, &mut buf[to..]);
    }
    to
}

// The two chains of pair k.
fn put_pair_at(levels: AtomBytes<'_>, w: usize, k: Pair, buf: &mut [u8]) -> usize
    requires { (0 < k.0) × (k.0 ≤ (totals_in levels.table.cells.now).pairs)
        × (Room (pair_at_bytes (code_of levels) w (levels_of levels) k.0) buf.old) }
    ensures { Wrote (pair_at_bytes (code_of levels.entry) w (levels_of levels.entry) k.0) buf.old buf.new result }
{
    let table = levels.table;
    let x = u16::from(byte_of(levels.bytes, table.pair_body(k)));
    let y = u16::from(byte_of(levels.bytes, table.pair_head(k)));
    put_pair_values(w, x, y, buf)
}

// The two chains of each pair.
pub fn put_chains(levels: AtomBytes<'_>, w: usize, buf: &mut [u8]) -> usize
    requires { Room (chain_bytes (code_of levels) w (levels_of levels)) buf.old }
    ensures { Wrote (chain_bytes (code_of levels.entry) w (levels_of levels.entry)) buf.old buf.new result }
{
    let mut to: usize = 0;
    for k in 0..levels.table.totals().pairs {
        to += put_pair_at(levels, w, Pair(k + 1), &mut buf[to..]);
    }
    to
}
