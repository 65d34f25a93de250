// The scan of lists of terms before a calculation.
ghost use Rattle.std.specs.Prelude.{◌≡◌};
ghost use Rattle.algebra.specs.declared.fault.AlgebraFault.{AlgebraFault as Fault};
ghost use Rattle.algebra.specs.declared.fault.CallCause.{CallCause as Cause};
ghost use Rattle.algebra.specs.Calls.{check_term, scan};
ghost use Rattle.algebra.specs.Overlaps.{passed};
ghost use Rattle.algebra.specs.Scans.{in_list, placed};

use crate::fault::{AlgebraFault, CallCause};
use coefficients::fault::RingFault;
use coefficients::ring::Ring;
use orders::order::MonomialOrder;
use relations::presentation::Presentation;
use relations::row::is_word_over;
use words::term::Term;

// Which of a calculation's lists a term is in.
#[derive(Clone, Copy)]
pub(crate) enum Side {
    First,
    Second,
}

impl Side {
    // The fault of the term at a place of this list.
    fn fault(self, cause: CallCause, place: u64) -> AlgebraFault
        ensures { result ≡ in_list self place cause }
    {
        match self {
            Side::First => cause.at(place, 0),
            Side::Second => cause.at(0, place),
        }
    }
}

// The checks of one term.
fn check_term<R: Ring>(ring: &R, n: u64, t: &Term) -> Result<(), CallCause>
    ensures { (f : Cause → Fault) → placed f result ≡ check_term f (R.model ring.now) n t.now passed }
{
    if !is_word_over(n, &t.row) {
        return Err(CallCause::Generator);
    }
    if !ring.in_use(t.code) {
        return Err(CallCause::Coefficient(RingFault::NotInUse));
    }
    Ok(())
}

// The checks of each term of a list, counted from 1.
pub(crate) fn check_list<R: Ring, O: MonomialOrder>(
    presentation: &Presentation<R, O>,
    side: Side,
    list: &[Term],
) -> Result<(), AlgebraFault>
    ensures { result ≡ scan (in_list side) (R.model presentation.now.rules.ring) presentation.now.count.n 1 list.now passed }
{
    let n = presentation.count().value();
    let ring = &presentation.rules().ring;
    for (p, t) in list.iter().enumerate() {
        let place = p as u64 + 1;
        check_term(ring, n, t).map_err(|cause| side.fault(cause, place))?;
    }
    Ok(())
}
