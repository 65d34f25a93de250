// The calculations with lists of terms.
ghost use Rattle.run.specs.Calls.{entries_of};

use crate::fault::RunFault;
use crate::rules::Rules;
use crate::source::Source;
use coefficients::ring::Ring;
use kept::list::KeptList;
use orders::order::MonomialOrder;
use words::term::Term;

#[derive(Clone, Copy)]
pub enum Calculation<'a> {
    // the normal form of a list
    Normalise(&'a [Term]),
    // of the sum of two lists
    Sum(&'a [Term], &'a [Term]),
    // of the first list minus the second
    Difference(&'a [Term], &'a [Term]),
    // of the product of two lists
    Product(&'a [Term], &'a [Term]),
}

impl Source for Calculation<'_> {
    ghost entries = { λ c m _. entries_of m c };

    fn load<R: Ring, O: MonomialOrder>(
        &self,
        rules: &Rules<R, O>,
        list: &mut KeptList<O>,
    ) -> Result<(), RunFault> {
        match *self {
            Calculation::Normalise(terms) => rules.load_first(terms, list),
            Calculation::Sum(first, second) => {
                rules.load_first(first, list)?;
                rules.load_second(second, list)
            }
            Calculation::Difference(first, second) => {
                rules.load_first(first, list)?;
                rules.load_negated(second, list)
            }
            Calculation::Product(first, second) => rules.load_products(first, second, list),
        }
    }
}
