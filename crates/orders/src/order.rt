// Orders on images, and the order lex.
ghost use Rattle.std.specs.Prelude.{◌≡◌};
ghost use Rattle.orders.specs.Images.{counts as counts_of};
ghost use Rattle.orders.specs.Models.{OrderModel, lex_model, compare_images};
ghost use Rattle.orders.specs.Laws.{ImagesOrdered};

use crate::image::Image;
use std::cmp::Ordering;

// An order means a key for every image; images compare by the first difference of their keys.
pub trait MonomialOrder {
    ghost model: { Self → OrderModel };

    fn compare(&self, a: &Image, b: &Image) -> Ordering
        ensures { result ≡ compare_images (model self.now) (counts_of a.now) (counts_of b.now) };
}

// By the count of x1, then by that of x2, and so on.
#[derive(Clone, Copy, PartialEq, Eq, Debug)]
pub struct Lex;

impl MonomialOrder for Lex {
    ghost model = { λ _. lex_model };

    fn compare(&self, a: &Image, b: &Image) -> Ordering {
        a.first_difference(b)
    }
}

// Under every order, comparing images is a strict total order, compatible with sums, and there is no infinite descent.
pub fn images_are_ordered<O: MonomialOrder>(order: &O)
    ensures { ImagesOrdered (O.model order.now) }
{}
