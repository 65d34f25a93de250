// Why a line is refused.
ghost use Rattle.std.specs.Prelude.{◌≡◌};
ghost use Rattle.grammar.specs.Faults.{form_refusal, fault_of};

use refusals::Refusal;

// The line has more than 1,000 bytes, is no form, or has a bracket of an expression that nests too deep.
#[derive(Clone, Copy, PartialEq, Eq, Debug)]
pub enum FormFault {
    TooLong,
    Unreadable,
    TooDeep,
}

impl From<FormFault> for Refusal {
    ghost from_gives = { λ e r. r ≡ form_refusal e };

    fn from(e: FormFault) -> Refusal {
        match e {
            FormFault::Unreadable => Refusal::plain(12, 4),
            FormFault::TooLong | FormFault::TooDeep => Refusal::plain(13, 4),
        }
    }
}

// Where a reader stops: at a byte that goes on no form, or at a bracket that nests too deep.
#[derive(Clone, Copy, PartialEq, Eq, Debug)]
pub enum ReadFault {
    Misfit,
    DeepBracket,
}

impl From<ReadFault> for FormFault {
    ghost from_gives = { λ e r. r ≡ fault_of e };

    fn from(e: ReadFault) -> FormFault {
        match e {
            ReadFault::Misfit => FormFault::Unreadable,
            ReadFault::DeepBracket => FormFault::TooDeep,
        }
    }
}
