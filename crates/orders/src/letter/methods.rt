// How letters are made and read.
ghost use Rattle.std.specs.Prelude.{◌≡◌, ◌<◌, ◌≤◌, true, false, length, slice_index, MatchOption};
ghost use Rattle.orders.specs.Letters.{is_letter, letters};

use crate::letter::{LETTERS, Letter, Row};

impl Letter {
    // None where no letter has the number.
    pub fn new(n: u64) -> Option<Letter>
        ensures { MatchOption result (is_letter n ≡ false) (λ x. (is_letter n ≡ true) × (x.number ≡ n)) }
    {
        if n == 0 || n > LETTERS as u64 {
            return None;
        }
        Some(Letter { number: n as u8 })
    }

    // The letter at a place of the word that a row holds.
    pub fn at(row: &Row, place: usize) -> Letter
        requires { place < length (letters row.now) }
        ensures { result.number ≡ slice_index (letters row.now) place }
    {
        Letter { number: row[place] }
    }

    pub fn number(&self) -> u8
        ensures value { result ≡ self.now.number }
        ensures bound { (0 < result) × (result ≤ 8) }
    {
        self.number
    }
}
