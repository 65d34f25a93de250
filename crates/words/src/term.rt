// Terms: a word in a row, and the code of its coefficient.
ghost use Rattle.std.specs.Prelude.{◌≡◌};
ghost use Rattle.words.specs.Terms.{blank as blank_term};

use orders::letter::{ROW_LENGTH, Row};

#[derive(Clone, Copy, PartialEq, Eq, Debug)]
pub struct Term {
    pub row: Row,
    pub code: u64,
}

impl Term {
    // The empty word with code 0.
    pub fn blank() -> Term
        ensures { result ≡ blank_term }
    {
        let row = [0; ROW_LENGTH];
        Term { row, code: 0 }
    }
}
