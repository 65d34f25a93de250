// The order by weighted degree.
ghost use Rattle.std.specs.Prelude.{◌≡◌};
ghost use Rattle.orders.specs.Images.{counts as counts_of};
ghost use Rattle.orders.specs.Models.{degree_model};
ghost use Rattle.orders.specs.Orders.{dot};
ghost use Rattle.orders.specs.Weights.{weight_values};

use crate::image::Image;
use crate::letter::LETTERS;
use crate::order::MonomialOrder;
use crate::weight::Weight;
use std::cmp::Ordering;

// By the weighted count, then by the counts as lex does.
#[derive(Clone, Copy, Debug)]
pub struct Degree {
    weights: [Weight; LETTERS],
}

impl Degree {
    pub fn new(weights: [Weight; LETTERS]) -> Degree
        ensures { result.weights ≡ weights }
    {
        Degree { weights }
    }

    // Each count times its weight, added up.
    pub fn weighted(&self, image: &Image) -> u32
        ensures { result ≡ dot (weight_values self.now.weights) (counts_of image.now) }
    {
        let counts = image.counts();
        self.weights
            .iter()
            .zip(counts.iter())
            .map(|(weight, count)| weight.times(*count))
            .sum()
    }
}

impl MonomialOrder for Degree {
    ghost model = { λ d. degree_model (weight_values d.weights) };

    // Equal images need no weights.
    #[tactic(auto, using(crate::proofs::Comparing::same_weights))]
    fn compare(&self, a: &Image, b: &Image) -> Ordering {
        let by_counts = a.first_difference(b);
        if by_counts.is_eq() {
            return Ordering::Equal;
        }
        self.weighted(a).cmp(&self.weighted(b)).then(by_counts)
    }
}
