// Letters, and rows that hold the letters of a word.
ghost use Rattle.std.specs.Prelude.{◌≡◌, ◌<◌, ◌≤◌};
ghost use Rattle.orders.specs.Letters.{is_letter};

// How many letters there are: they are the numbers 1, 2 and so on.
pub const LETTERS: usize = 8;

// How many places a row has.
pub const ROW_LENGTH: usize = 32;

// The letters of a word, up to the first number that is no letter.
pub type Row = [u8; ROW_LENGTH];

// Whether a number is a letter.
pub fn is_letter(x: u8) -> bool
    ensures { result ≡ is_letter x }
{
    x >= 1 && x as usize <= LETTERS
}

// A letter: its number, from 1 to 8.
#[derive(Clone, Copy, PartialEq, Eq, Debug)]
pub struct Letter {
    number: u8,
    ghost range: { (0 < number) × (number ≤ 8) },
}

mod methods;
