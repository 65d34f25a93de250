// Why a declaration is refused, and at which term of the tail.
ghost use Rattle.std.specs.Prelude.{◌≡◌};
ghost use Rattle.relations.specs.Faults.{cause_refusal, declare_refusal};

use coefficients::fault::RingFault;
use refusals::Refusal;

#[derive(Clone, Copy, PartialEq, Eq, Debug)]
pub enum DeclareCause {
    // not from 1 to n, or a row that is no word in these letters
    Generator,
    // j is not above i
    NotRising,
    AlreadyDeclared,
    // a code that is not in use
    Coefficient(RingFault),
    FactorZero,
    // more than eight terms, or a word of more than eight letters
    TailSize,
    // a coefficient zero, a word that is not standard, or one that is not below the one before
    TailNotKept,
    // the image of a word is not before that of x_i x_j
    TailNotBefore,
}

// The term is counted from 1, and 0 where the fault is of no term.
#[derive(Clone, Copy, PartialEq, Eq, Debug)]
pub struct DeclareFault {
    pub cause: DeclareCause,
    pub term: u64,
}

impl DeclareCause {
    // At a term of the tail.
    pub(crate) fn at(self, term: u64) -> DeclareFault
        ensures { result ≡ record { cause = self; term = term } }
    {
        DeclareFault { cause: self, term }
    }
}

// At no term.
impl From<DeclareCause> for DeclareFault {
    ghost from_gives = { λ e r. r ≡ record { cause = e; term = 0 } };

    fn from(cause: DeclareCause) -> DeclareFault {
        cause.at(0)
    }
}

impl From<DeclareCause> for Refusal {
    ghost from_gives = { λ e r. r ≡ cause_refusal e };

    fn from(cause: DeclareCause) -> Refusal {
        match cause {
            DeclareCause::Generator => Refusal::plain(2, 3),
            DeclareCause::NotRising => Refusal::plain(3, 3),
            DeclareCause::AlreadyDeclared => Refusal::plain(20, 3),
            DeclareCause::Coefficient(fault) => Refusal::from(fault),
            DeclareCause::FactorZero => Refusal::plain(5, 3),
            DeclareCause::TailSize => Refusal::plain(6, 3),
            DeclareCause::TailNotKept => Refusal::plain(7, 3),
            DeclareCause::TailNotBefore => Refusal::plain(8, 3),
        }
    }
}

impl From<DeclareFault> for Refusal {
    ghost from_gives = { λ e r. r ≡ declare_refusal e };

    fn from(fault: DeclareFault) -> Refusal {
        Refusal {
            b: fault.term,
            ..Refusal::from(fault.cause)
        }
    }
}
