// Pieces of a form that are left for being worked out.
ghost use Rattle.std.specs.Prelude.{◌≡◌};

use crate::reader::LINE_LENGTH;
use arrayvec::ArrayVec;

#[derive(Clone, Copy, PartialEq, Eq)]
pub enum Operator {
    Sum,
    Product,
    Difference,
}

// A generator by its number, a coefficient by its bytes in the line, or the joining of the last two values.
#[derive(Clone, Copy)]
pub enum Piece<'a> {
    Generator(u64),
    Coefficient(&'a [u8]),
    Join(Operator),
}

// What stands in a place that holds no piece yet.
impl<'a> Default for Piece<'a> {
    ghost use Rattle.grammar.specs.Pieces.{shown, a_generator};

    ghost is_default = { λ p. shown p ≡ a_generator 0 };

    fn default() -> Piece<'a> {
        Piece::Generator(0)
    }
}

// The pieces of a form, of which there are at most as many as bytes in a line.
pub type Pieces<'a> = ArrayVec<Piece<'a>, LINE_LENGTH>;
