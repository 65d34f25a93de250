// Presentations.
ghost use Rattle.normal_forms.specs.Relations.{Valid, Valid-prop};

use crate::count::Count;
use coefficients::ring::Ring;
use orders::order::MonomialOrder;
use run::rules::Rules;

// A ring, an order, the relation of each pair, and how many generators there are. The relations are valid, so rewriting by them ends.
#[derive(Drop)]
pub struct Presentation<R: Ring, O: MonomialOrder> {
    rules: Rules<R, O>,
    count: Count,
    ghost valid: { Valid (R.model rules.ring) (O.model rules.order) count.n rules.table } by { Valid-prop (R.model rules.ring) (O.model rules.order) count.n rules.table },
}

mod methods;
mod tail;
