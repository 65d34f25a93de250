// Words of up to 32 letters.
ghost use Rattle.std.specs.Prelude.{◌≡◌, true};
ghost use Rattle.words.specs.Rows.{is_row};

use orders::letter::Row;

#[derive(Clone, Copy, PartialEq, Eq, Debug)]
pub enum WordFault {
    NoWord,
    BadLetter,
    TooLong,
}

// Its letters, then zeros.
#[derive(Clone, Copy, Debug)]
pub struct Word {
    row: Row,
    ghost filled: { is_row row ≡ true },
}

mod methods;
