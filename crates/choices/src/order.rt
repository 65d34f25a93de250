// The monomial orders as one type.
ghost use Rattle.std.specs.Prelude.{◌≡◌, true, false, MatchResult};
ghost use Rattle.orders.specs.Models.{degree_model};
ghost use Rattle.orders.specs.Weights.{weight_values};
ghost use Rattle.choices.specs.Orders.{order_model, all_weights, degree_from, the_lex};

use orders::degree::Degree;
use orders::image::Image;
use orders::letter::LETTERS;
use orders::order::{Lex, MonomialOrder};
use orders::weight::{Weight, WeightOutOfRange};
use std::cmp::Ordering;

#[derive(Clone, Copy)]
pub enum AnyOrder {
    Lex(Lex),
    Degree(Degree),
}

// The weights as numbers from 1 to 255, checked from the left.
fn checked(weights: [u64; LETTERS]) -> Result<[Weight; LETTERS], WeightOutOfRange>
    ensures { MatchResult result (λ vs. (all_weights weights ≡ true) × (weight_values vs ≡ weights)) (λ _. all_weights weights ≡ false) }
{
    weights.try_map(Weight::try_from)
}

impl AnyOrder {
    pub fn lex() -> AnyOrder
        ensures { result ≡ the_lex }
    {
        AnyOrder::Lex(Lex)
    }

    // The order by weighted degree; weights are from 1 to 255.
    pub fn degree(weights: [u64; LETTERS]) -> Result<AnyOrder, WeightOutOfRange>
        ensures value { result ≡ degree_from weights }
        ensures model { MatchResult result (λ o. (all_weights weights ≡ true) × (order_model o ≡ degree_model weights)) (λ _. all_weights weights ≡ false) }
    {
        let weights = checked(weights)?;
        Ok(AnyOrder::Degree(Degree::new(weights)))
    }
}

impl MonomialOrder for AnyOrder {
    ghost model = { λ o. order_model o };

    fn compare(&self, a: &Image, b: &Image) -> Ordering {
        match self {
            AnyOrder::Lex(order) => order.compare(a, b),
            AnyOrder::Degree(order) => order.compare(a, b),
        }
    }
}
