// The image of a word: how often each of the eight letters comes in it.
ghost use Rattle.std.specs.Prelude.{◌≡◌};
ghost use Rattle.orders.specs.Letters.{letters, image};
ghost use Rattle.orders.specs.Orders.{first_difference};
ghost use Rattle.orders.specs.Images.{counts as counts_of};

use crate::letter::{LETTERS, Row, is_letter};
use std::cmp::Ordering;

// The eight counts are the bytes of one number, that of x1 the highest: comparing numbers compares images.
#[derive(Clone, Copy, PartialEq, Eq, Debug)]
pub struct Image {
    packed: u64,
}

impl Image {
    // The image of the word that a row holds.
    pub fn of_row(row: &Row) -> Image
        ensures { counts_of result ≡ image (letters row.now) }
    {
        // no chain: the closure of a `map` doesn't know what a `take_while` let through, and 64 - 8x may not fall below 0
        let mut packed = 0u64;
        for x in row {
            if !is_letter(*x) {
                break;
            }
            packed += 1 << (64 - 8 * *x);
        }
        Image { packed }
    }

    // The counts of x1, x2 and so on.
    pub fn counts(&self) -> [u8; LETTERS]
        ensures { result ≡ counts_of self.now }
    {
        self.packed.to_be_bytes()
    }

    // By the count of x1, then by that of x2, and so on.
    pub fn first_difference(&self, other: &Image) -> Ordering
        ensures { result ≡ first_difference (counts_of self.now) (counts_of other.now) }
    {
        let (a, b) = (self.packed, other.packed);
        a.cmp(&b)
    }
}
