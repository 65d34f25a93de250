// Why a coefficient ring refuses.
ghost use Rattle.std.specs.Prelude.{◌≡◌};
ghost use Rattle.coefficients.specs.Faults.{ring_refusal};

use refusals::Refusal;

#[derive(Clone, Copy, PartialEq, Eq, Debug)]
pub enum RingFault {
    // an operand is not in use
    NotInUse,
    // the text is no writing of a code
    NoWriting,
    // no code in use means the result
    NoCode,
}

impl From<RingFault> for Refusal {
    ghost from_gives = { λ fault refusal. refusal ≡ ring_refusal fault };

    fn from(fault: RingFault) -> Refusal {
        match fault {
            RingFault::NotInUse | RingFault::NoWriting => Refusal::plain(4, 1),
            RingFault::NoCode => Refusal::plain(10, 1),
        }
    }
}
