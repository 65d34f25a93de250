// Rows of few letters, and rows that hold a word in the letters 1 to n.
ghost use Rattle.std.specs.Prelude.{◌≡◌, ◌≤◌, map, length};
ghost use Rattle.orders.specs.Letters.{letters};
ghost use Rattle.words.specs.Rows.{row_of as the_row};
ghost use Rattle.relations.specs.Declare.{is_word, letters_to};

use orders::letter::{Letter, Row, is_letter};
use words::word::Word;

// The letters, then zeros.
pub fn row_of(letters: &[Letter]) -> Row
    requires { length letters.now ≤ 32 }
    ensures { result ≡ the_row (map (λ x. x.number) letters.now) }
{
    let mut row = [0; 32];
    for (k, x) in letters.iter().enumerate() {
        row[k] = x.number();
    }
    row
}

// Whether no letter of a row is above n. What stands behind the letters is not looked at: most words are short, and each term of a list is asked.
fn is_within(n: u64, row: &Row) -> bool
    ensures { result ≡ letters_to n (letters row.now) }
{
    row.iter()
        .take_while(|x| is_letter(**x))
        .all(|x| *x as u64 <= n)
}

// Whether a row has letters from 1 to n, then zeros.
pub fn is_word_over(n: u64, row: &Row) -> bool
    ensures { result ≡ is_word n row.now }
{
    Word::try_from(*row).is_ok() && is_within(n, row)
}
