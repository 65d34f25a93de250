// How an open algebra becomes a closed one.
ghost use Rattle.std.specs.Prelude.{◌≡◌};
ghost use Rattle.algebra.specs.declared.verdict.Verdict.TheVariants.{Undecided};

use crate::closed::Closed;
use coefficients::ring::Ring;
use orders::order::MonomialOrder;
use relations::open::Open;

// Uses the open algebra up: its relations stand, and nothing is known of them yet.
pub fn close<R: Ring, O: MonomialOrder>(algebra: Open<R, O>) -> Closed<R, O>
    ensures presentation { result.presentation ≡ algebra.presentation }
    ensures undecided { result.verdict ≡ Undecided }
{
    Closed::undecided(algebra.into_presentation())
}
