// Numerals in base 2 and 10: written into 80 bytes, and read from text.
#[derive(Clone, Copy, PartialEq, Eq, Debug)]
pub enum Base {
    Binary,
    Decimal,
}

mod reads;
mod writes;

pub use reads::read_numeral;
pub use writes::write_numeral;
