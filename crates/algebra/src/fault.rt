// Why a call on a closed algebra is refused, and where.
ghost use Rattle.std.specs.Prelude.{◌≡◌};
ghost use Rattle.algebra.specs.Faults.{cause_refusal, algebra_refusal};
ghost use Rattle.algebra.specs.Overlaps.{unplaced};
ghost use Rattle.algebra.specs.declared.fault.AlgebraFault.TheVariants.{Call, Run};

use coefficients::fault::RingFault;
use refusals::Refusal;
use run::fault::RunFault;

#[derive(Clone, Copy, PartialEq, Eq, Debug)]
pub enum CallCause {
    Undecided,
    Degenerate,
    // not from 1 to n, or a row that is no word in these letters
    Generator,
    // a triple that does not rise
    NotRising,
    // a code that is not in use
    Coefficient(RingFault),
}

// Before a run: the place in the first list and in the second, 0 where there is none.
#[derive(Clone, Copy, PartialEq, Eq, Debug)]
pub struct CallFault {
    pub cause: CallCause,
    pub a: u64,
    pub b: u64,
}

#[derive(Clone, Copy, PartialEq, Eq, Debug)]
pub enum AlgebraFault {
    Call(CallFault),
    Run(RunFault),
}

// The fault of a decision: that of the overlap, whole, and its triple.
#[derive(Clone, Copy, PartialEq, Eq, Debug)]
pub struct DecideFault {
    pub overlap: AlgebraFault,
    pub i: u64,
    pub j: u64,
    pub k: u64,
}

impl CallCause {
    // At a place of the first list or of the second.
    pub(crate) fn at(self, a: u64, b: u64) -> AlgebraFault
        ensures { result ≡ Call (record { cause = self; a = a; b = b }) }
    {
        AlgebraFault::Call(CallFault { cause: self, a, b })
    }
}

// At no place.
impl From<CallCause> for AlgebraFault {
    ghost from_gives = { λ e r. r ≡ unplaced e };

    fn from(cause: CallCause) -> AlgebraFault {
        cause.at(0, 0)
    }
}

impl From<RunFault> for AlgebraFault {
    ghost from_gives = { λ e r. r ≡ Run e };

    fn from(fault: RunFault) -> AlgebraFault {
        AlgebraFault::Run(fault)
    }
}

impl From<CallCause> for Refusal {
    ghost from_gives = { λ e r. r ≡ cause_refusal e };

    fn from(cause: CallCause) -> Refusal {
        match cause {
            CallCause::Undecided => Refusal::plain(21, 3),
            CallCause::Degenerate => Refusal::plain(22, 3),
            CallCause::Generator => Refusal::plain(2, 3),
            CallCause::NotRising => Refusal::plain(3, 3),
            CallCause::Coefficient(fault) => Refusal::from(fault),
        }
    }
}

impl From<AlgebraFault> for Refusal {
    ghost from_gives = { λ e r. r ≡ algebra_refusal e };

    fn from(fault: AlgebraFault) -> Refusal {
        match fault {
            AlgebraFault::Call(CallFault { cause, a, b }) => Refusal {
                a,
                b,
                ..Refusal::from(cause)
            },
            AlgebraFault::Run(fault) => Refusal::from(fault),
        }
    }
}

// That of the overlap; the triple is told apart.
impl From<DecideFault> for Refusal {
    ghost from_gives = { λ e r. r ≡ algebra_refusal e.overlap };

    fn from(fault: DecideFault) -> Refusal {
        Refusal::from(fault.overlap)
    }
}
