// A row with its image counted once, to be compared with many others. Inversions are counted only where images are equal and words differ,
// which is rare.
ghost use Rattle.std.specs.Prelude.{◌≡◌};
ghost use Rattle.orders.specs.Images.{counts};
ghost use Rattle.orders.specs.Letters.{letters, image as image_of};
ghost use Rattle.words.specs.Compare.{compare_ties as ties, compare_words};

use crate::row::{first_letter_difference, row_inversions};
use orders::image::Image;
use orders::letter::Row;
use orders::order::MonomialOrder;
use std::cmp::Ordering;

#[derive(Clone, Copy)]
pub struct Measured {
    row: Row,
    image: Image,
    ghost counted: { counts image ≡ image_of (letters row) },
}

impl Measured {
    pub fn new(row: Row) -> Measured
        ensures { result.row ≡ row }
    {
        let image = Image::of_row(&row);
        Measured { row, image }
    }

    // As compare_rows compares its row with the other.
    pub fn compare_with<O: MonomialOrder>(&self, order: &O, other: &Row) -> Ordering
        ensures { result ≡ compare_words (O.model order.now) (letters self.now.row) (letters other.now) }
    {
        order
            .compare(&self.image, &Image::of_row(other))
            .then_with(|| compare_ties(&self.row, other))
    }
}

// Words of one image: equal words have equally many inversions.
#[tactic(auto, using(crate::proofs::Ranking::same_ties))]
fn compare_ties(a: &Row, b: &Row) -> Ordering
    ensures { result ≡ ties (letters a.now) (letters b.now) }
{
    let by_letters = first_letter_difference(a, b);
    if by_letters.is_eq() {
        return Ordering::Equal;
    }
    row_inversions(a).cmp(&row_inversions(b)).then(by_letters)
}
