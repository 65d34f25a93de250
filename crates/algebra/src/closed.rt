// Closed algebras.
ghost use Rattle.algebra.specs.Meaning.{TellsTruth};

use crate::verdict::Verdict;
use coefficients::ring::Ring;
use orders::order::MonomialOrder;
use relations::presentation::Presentation;

// A presentation, and what is known of it: once decided, the verdict says whether the standard words are a basis. That a basis is there can be
// shown in many ways, so the fact is truncated; `truth-known` takes it out again.
#[derive(Drop)]
pub struct Closed<R: Ring, O: MonomialOrder> {
    presentation: Presentation<R, O>,
    verdict: Verdict,
    ghost truthful: { ∥ TellsTruth (R.model presentation.rules.ring) presentation.count.n presentation.rules.table verdict ∥₁ },
}

mod calls;
mod decide;
mod methods;
mod overlap;
