// The lines of clauses, written into a lent buffer (document 01, "Clauses, in order").
#![tactic(auto)]

ghost use Rattle.std.specs.Prelude.{◌≡◌, length};
ghost use Rattle.digits.specs.Bytes.{line_text, Room, Wrote};
ghost use Rattle.clause_layout.specs.Clauses.{literals_of};
ghost use Rattle.clause_text.specs.Blocks.{is_blockwise};

use clause_iter::Literals;
use clause_layout::TableClause;
use digits::{literal_length, put_literal};

// How many bytes the line of a clause has.
pub fn clause_length(c: TableClause<'_>) -> usize
    ensures { result ≡ length (line_text (literals_of c.entry)) }
{
    Literals::of(c).map(literal_length).sum::<usize>() + 2
}

// Writes the line of a clause at the front of the buffer and returns how many bytes it has.
pub fn put_clause(c: TableClause<'_>, buf: &mut [u8]) -> usize
    requires { Room (line_text (literals_of c)) buf.old }
    ensures { Wrote (line_text (literals_of c.entry)) buf.old buf.new result }
{
    let mut to: usize = 0;
    for x in Literals::of(c) {
        to += put_literal(x, &mut buf[to..]);
    }
    buf[to] = b'0';
    buf[to + 1] = b'\n';
    to + 2
}

// Whether the blocks of group g are written as a whole: those of groups 4 and 5, which have nearly all clauses.
pub fn is_blockwise(g: u16) -> bool
    ensures { result ≡ is_blockwise g }
{
    g == 4 || g == 5
}
