// Why a line has no other answer: it is refused, or memory ran out.
ghost use Rattle.std.specs.Prelude.{◌≡◌};
ghost use Rattle.answers.specs.declared.fault.ScriptFault.TheVariants.{Form, Coefficient, Word, Declare, Algebra, Decide};
ghost use Rattle.answers.specs.declared.failure.Failure.TheVariants.{Refused, Memory};

use crate::fault::ScriptFault;
use algebra::fault::{AlgebraFault, DecideFault};
use coefficients::fault::RingFault;
use grammar::fault::FormFault;
use relations::fault::DeclareFault;
use std::alloc::{AllocError, AllocFailed};
use words::word::WordFault;

#[derive(Clone, Copy)]
pub enum Failure {
    Refused(ScriptFault),
    Memory(AllocError),
}

impl From<ScriptFault> for Failure {
    ghost from_gives = { λ e r. r ≡ Refused e };

    fn from(e: ScriptFault) -> Failure {
        Failure::Refused(e)
    }
}

impl From<FormFault> for Failure {
    ghost from_gives = { λ e r. r ≡ Refused (Form e) };

    fn from(e: FormFault) -> Failure {
        Failure::Refused(ScriptFault::from(e))
    }
}

impl From<RingFault> for Failure {
    ghost from_gives = { λ e r. r ≡ Refused (Coefficient e) };

    fn from(e: RingFault) -> Failure {
        Failure::Refused(ScriptFault::from(e))
    }
}

impl From<WordFault> for Failure {
    ghost from_gives = { λ e r. r ≡ Refused (Word e) };

    fn from(e: WordFault) -> Failure {
        Failure::Refused(ScriptFault::from(e))
    }
}

impl From<DeclareFault> for Failure {
    ghost from_gives = { λ e r. r ≡ Refused (Declare e) };

    fn from(e: DeclareFault) -> Failure {
        Failure::Refused(ScriptFault::from(e))
    }
}

impl From<AlgebraFault> for Failure {
    ghost from_gives = { λ e r. r ≡ Refused (Algebra e) };

    fn from(e: AlgebraFault) -> Failure {
        Failure::Refused(ScriptFault::from(e))
    }
}

impl From<DecideFault> for Failure {
    ghost from_gives = { λ e r. r ≡ Refused (Decide e) };

    fn from(e: DecideFault) -> Failure {
        Failure::Refused(ScriptFault::from(e))
    }
}

impl From<AllocError> for Failure {
    ghost from_gives = { λ e r. r ≡ Memory e };

    fn from(e: AllocError) -> Failure {
        Failure::Memory(e)
    }
}

impl<T: Drop> From<AllocFailed<T>> for Failure {
    ghost from_gives = { λ _ r. r ≡ Memory (record {}) };

    fn from(e: AllocFailed<T>) -> Failure {
        Failure::Memory(AllocError::from(e))
    }
}
