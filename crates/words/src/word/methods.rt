// How words are made and grow, and what is asked of them.
ghost use Rattle.std.specs.Prelude.{◌≡◌, ◌≤◌, [], length};
ghost use Rattle.orders.specs.Letters.{image as image_of, row_places};
ghost use Rattle.orders.specs.Images.{counts};
ghost use Rattle.words.specs.Compare.{compare_words};
ghost use Rattle.words.specs.Faults.{refusal_of};
ghost use Rattle.words.specs.Growth.{grown, answer, value_or};
ghost use Rattle.words.specs.Inversions.{inversions as inversions_of, standard, leftmost_inversion};
ghost use Rattle.words.specs.Laws.{WordsOrdered};
ghost use Rattle.words.specs.Rows.{is_row, row_of};
ghost use Rattle.words.specs.Spelled.{HeldBy, spelled};

use crate::row::{
    compare_rows, row_inversions, row_is_standard, row_leftmost_inversion, row_length,
};
use crate::word::{Word, WordFault};
use orders::image::Image;
use orders::letter::{Letter, ROW_LENGTH, Row, is_letter};
use orders::order::MonomialOrder;
use refusals::Refusal;
use std::cmp::Ordering;

impl From<WordFault> for Refusal {
    ghost from_gives = { λ fault refusal. refusal ≡ refusal_of fault };

    fn from(fault: WordFault) -> Refusal {
        match fault {
            WordFault::NoWord | WordFault::BadLetter => Refusal::plain(2, 3),
            WordFault::TooLong => Refusal::plain(11, 2),
        }
    }
}

// Whether a row has letters, then zeros.
// measured: as a `skip_while(..).all(..)` this takes twice as long, and each term of every list is asked
fn holds_word(row: &Row) -> bool
    ensures { result ≡ is_row row.now }
{
    let mut ended = false;
    for x in row {
        if ended || !is_letter(*x) {
            if *x != 0 {
                return false;
            }
            ended = true;
        }
    }
    true
}

impl TryFrom<Row> for Word {
    type Error = WordFault;

    ghost try_from_gives = { HeldBy };

    fn try_from(row: Row) -> Result<Word, WordFault> {
        if holds_word(&row) {
            Ok(Word { row })
        } else {
            Err(WordFault::NoWord)
        }
    }
}

impl Word {
    pub fn empty() -> Word
        ensures { spelled result ≡ [] }
    {
        Word {
            row: [0; ROW_LENGTH],
        }
    }

    // One letter more at the end; a refusal leaves the word as it was.
    #[tactic(auto, using(crate::proofs::Filling::row_push, crate::proofs::Filling::letters_push))]
    pub fn push(&mut self, letter: u64) -> Result<(), WordFault>
        ensures answer { result ≡ answer (grown (spelled self.old) letter) }
        ensures after { spelled self.new ≡ value_or (spelled self.old) (grown (spelled self.old) letter) }
    {
        let letter = Letter::new(letter).ok_or(WordFault::BadLetter)?;
        let n = self.len();
        if n >= ROW_LENGTH {
            return Err(WordFault::TooLong);
        }
        self.row[n] = letter.number();
        Ok(())
    }

    // The letters, then zeros.
    pub fn row(&self) -> Row
        ensures value { result ≡ self.now.row }
        ensures padded { result ≡ row_of (spelled self.now) }
    {
        self.row
    }

    pub fn len(&self) -> usize
        ensures value { result ≡ length (spelled self.now) }
        ensures bound { result ≤ row_places }
    {
        row_length(&self.row)
    }

    // How often each letter comes in the word.
    pub fn image(&self) -> Image
        ensures { counts result ≡ image_of (spelled self.now) }
    {
        Image::of_row(&self.row)
    }

    pub fn inversions(&self) -> usize
        ensures { result ≡ inversions_of (spelled self.now) }
    {
        row_inversions(&self.row)
    }

    pub fn is_standard(&self) -> bool
        ensures { result ≡ standard (spelled self.now) }
    {
        row_is_standard(&self.row)
    }

    // The place, counted from 0, of the left letter of the leftmost inversion of neighbours.
    pub fn leftmost_inversion(&self) -> Option<usize>
        ensures { result ≡ leftmost_inversion (spelled self.now) }
    {
        row_leftmost_inversion(&self.row)
    }

    // Later image, then more inversions, then the larger letter at the first difference: a strict total order under every order on images.
    pub fn compare<O: MonomialOrder>(&self, order: &O, other: &Word) -> Ordering
        ensures value { result ≡ compare_words (O.model order.now) (spelled self.now) (spelled other.now) }
        ensures ordered { WordsOrdered (O.model order.now) }
    {
        compare_rows(order, &self.row, &other.row)
    }
}
