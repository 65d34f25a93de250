// The law of every history of an algebra: what its verdicts and its answers mean, whatever calls are made. Each function here has a theorem
// for its contract, over every ring and every order that have a model, so that the crate is proved only if the theorem is.
#![tactic(auto)]

ghost use Rattle.histories.specs.Law.{HistoriesFaithful, RelationsDeclared};

use coefficients::ring::Ring;
use orders::order::MonomialOrder;

// A verdict says whether the standard words are a basis; in a sound algebra calculations have equal terms exactly where their free sums are
// congruent, and every rewriting that ends arrives at the terms.
pub fn histories_are_faithful<R: Ring, O: MonomialOrder>()
    ensures { (k : R) (o : O) → HistoriesFaithful (R.model k) (O.model o) }
{}

// The relations that the law speaks of are those that were declared.
pub fn relations_are_declared<R: Ring, O: MonomialOrder>()
    ensures { (k : R) (o : O) → RelationsDeclared (R.model k) (O.model o) }
{}
