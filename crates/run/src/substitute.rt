// Rows of words that are made of other words: letters, then zeros, whatever stands behind the letters of the rows that they come from.
ghost use Rattle.std.specs.Prelude.{◌≡◌, ◌+◌, ◌≤◌, ◌++◌, length, Some};
ghost use Rattle.std.proofs.Math.Seq.{paste};
ghost use Rattle.orders.specs.Letters.{letters};
ghost use Rattle.run.specs.Pieces.{rowed, zeros};

use orders::letter::{ROW_LENGTH, Row};
use words::row::row_length;

pub(crate) fn zero_row() -> Row
    ensures { result ≡ zeros }
{
    [0; ROW_LENGTH]
}

// Writes a part into a row, from a place on.
pub(crate) fn write_part(row: &mut Row, at: usize, part: &[u8])
    requires { at + length part.now ≤ 32 }
    ensures { row.new ≡ paste row.old at part.now (length part.now) }
{
    row[at..at + part.len()].copy_from_slice(part);
}

// The row of the word that a row holds.
pub(crate) fn clean_row(row: &Row) -> Row
    ensures { Some result ≡ rowed (letters row.now) }
{
    let n = row_length(row);
    let mut new = zero_row();
    write_part(&mut new, 0, &row[0..n]);
    new
}

// The row of the words of a and b, joined.
pub fn joined_row(a: &Row, b: &Row) -> Option<Row>
    ensures { result ≡ rowed (letters a.now ++ letters b.now) }
{
    let n = row_length(a);
    let m = row_length(b);
    if n + m > ROW_LENGTH {
        return None;
    }
    let mut new = zero_row();
    write_part(&mut new, 0, &a[0..n]);
    write_part(&mut new, n, &b[0..m]);
    Some(new)
}
