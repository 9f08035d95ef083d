// Refusal 5: rows that only a result has.
ghost use Rattle.std.specs.Prelude.{◌≡◌, ℕ, ◌+◌, ◌*◌, ◌≤◌, length};
ghost use Rattle.names.specs.Words.{words, kind_at, attr_at};
ghost use Rattle.grammar.specs.Grammar.{made_row};
ghost use Rattle.rows.specs.Refusals.{first_made};

use forest::RowBytes;
use grammar::kind::Kind;
use grammar::made_row;
use names::words::{attr_at, kind_at};

// Whether row i is one that only a result has.
fn is_made(s: &[u8], i: usize) -> bool
    requires { 16 * i + 16 ≤ length s.now }
    ensures { result ≡ made_row (kind_at (words s.now) i) (attr_at (words s.now) i) }
{
    made_row(Kind::from(kind_at(s, i)), attr_at(s, i))
}

pub fn first_made(rows: &RowBytes<'_>) -> Option<usize>
    ensures { result ≡ first_made (words rows.now.bytes.now) rows.now.count }
{
    (0..rows.count).find(|i| is_made(rows.bytes, *i))
}
