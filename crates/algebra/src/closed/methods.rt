// How closed algebras are made, and what is asked of them.
ghost use Rattle.std.specs.Prelude.{◌≡◌};
ghost use Rattle.algebra.specs.declared.verdict.Verdict.TheVariants.{Undecided};

use crate::closed::Closed;
use crate::verdict::Verdict;
use coefficients::ring::Ring;
use orders::order::MonomialOrder;
use relations::presentation::Presentation;

impl<R: Ring, O: MonomialOrder> Closed<R, O> {
    // Nothing is known of it yet.
    pub(crate) fn undecided(presentation: Presentation<R, O>) -> Closed<R, O>
        ensures presentation { result.presentation ≡ presentation }
        ensures undecided { result.verdict ≡ Undecided }
    {
        Closed {
            presentation,
            verdict: Verdict::Undecided,
        }
    }

    pub fn ring(&self) -> &R
        ensures { result.now ≡ self.now.presentation.rules.ring }
    {
        &self.presentation.rules().ring
    }

    pub fn verdict(&self) -> Verdict
        ensures { result ≡ self.now.verdict }
    {
        self.verdict
    }
}
