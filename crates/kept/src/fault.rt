// Why a term is not inserted.
ghost use Rattle.std.specs.Prelude.{◌≡◌};
ghost use Rattle.kept.specs.Faults.{kept_refusal};
ghost use Rattle.kept.specs.declared.fault.KeptFault.TheVariants.{Sum};

use coefficients::fault::RingFault;
use refusals::Refusal;

#[derive(Clone, Copy, PartialEq, Eq, Debug)]
pub enum KeptFault {
    // the sum with the coefficient that is there
    Sum(RingFault),
    // no place for one more term
    Full,
}

impl From<RingFault> for KeptFault {
    ghost from_gives = { λ e r. r ≡ Sum e };

    fn from(e: RingFault) -> KeptFault {
        KeptFault::Sum(e)
    }
}

impl From<KeptFault> for Refusal {
    ghost from_gives = { λ e r. r ≡ kept_refusal e };

    fn from(e: KeptFault) -> Refusal {
        match e {
            KeptFault::Sum(f) => Refusal::from(f),
            KeptFault::Full => Refusal::plain(23, 2),
        }
    }
}
