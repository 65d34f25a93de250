// How inversions are found, and the rows that their relation gives.
ghost use Rattle.std.specs.Prelude.{◌≡◌, ◌+◌, [], ◌∷◌, Some, None, MatchOption, slice_index};
ghost use Rattle.orders.specs.Letters.{letters};
ghost use Rattle.words.specs.Inversions.{leftmost_inversion};
ghost use Rattle.run.specs.Pieces.{around, rowed};

use crate::inversion::Inversion;
use crate::substitute::{clean_row, write_part, zero_row};
use orders::letter::{Letter, ROW_LENGTH, Row};
use words::row::{row_leftmost_inversion, row_length};
use words::term::Term;

impl<'a> Inversion<'a> {
    // The leftmost inversion of a term.
    pub(crate) fn leftmost(t: &'a Term) -> Option<Inversion<'a>>
        ensures { MatchOption result (None ≡ leftmost_inversion (letters t.now.row)) (λ x. (x.t.now ≡ t.now) × (Some x.k ≡ leftmost_inversion (letters t.now.row))) }
    {
        let k = row_leftmost_inversion(&t.row)?;
        Some(Inversion { t, k })
    }

    pub(crate) fn code(self) -> u64
        ensures { result ≡ self.entry.t.now.code }
    {
        self.t.code
    }

    // The letters at k and k + 1.
    pub(crate) fn letter_pair(self) -> (Letter, Letter)
        ensures left { result.0.number ≡ slice_index (letters self.entry.t.now.row) self.entry.k }
        ensures right { result.1.number ≡ slice_index (letters self.entry.t.now.row) (self.entry.k + 1) }
    {
        (
            Letter::at(&self.t.row, self.k),
            Letter::at(&self.t.row, self.k + 1),
        )
    }

    // The row of the word in which the letters at k and k + 1, j and i, are exchanged.
    pub(crate) fn exchanged_row(self, j: Letter, i: Letter) -> Row
        ensures { Some result ≡ rowed (around (letters self.entry.t.now.row) self.entry.k (i.number ∷ j.number ∷ [])) }
    {
        let mut new = clean_row(&self.t.row);
        new[self.k] = i.number();
        new[self.k + 1] = j.number();
        new
    }

    // The row of the word in which another word takes the place of the letters at k and k + 1.
    pub(crate) fn substituted_row(self, middle: &Row) -> Option<Row>
        ensures { result ≡ rowed (around (letters self.entry.t.now.row) self.entry.k (letters middle.now)) }
    {
        let Inversion { t, k } = self;
        let n = row_length(&t.row);
        let m = row_length(middle);
        if n - 2 + m > ROW_LENGTH {
            return None;
        }
        let mut new = zero_row();
        write_part(&mut new, 0, &t.row[0..k]);
        write_part(&mut new, k, &middle[0..m]);
        write_part(&mut new, k + m, &t.row[k + 2..n]);
        Some(new)
    }
}
