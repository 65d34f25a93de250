// Why a run refuses, and where.
ghost use Rattle.std.specs.Prelude.{◌≡◌};
ghost use Rattle.run.specs.Faults.{cause_of_kept, cause_refusal, run_refusal, loading, stepping, at_step};
ghost use Rattle.run.specs.declared.fault.Cause.TheVariants.{Coefficient};

use coefficients::fault::RingFault;
use kept::fault::KeptFault;
use refusals::Refusal;

#[derive(Clone, Copy, PartialEq, Eq, Debug)]
pub enum Cause {
    // a sum, a product or a negative
    Coefficient(RingFault),
    // a word of more letters than a row has places
    WordTooLong,
    WorkFull,
    ResultFull,
    StepLimit,
}

impl From<RingFault> for Cause {
    ghost from_gives = { λ e r. r ≡ Coefficient e };

    fn from(e: RingFault) -> Cause {
        Cause::Coefficient(e)
    }
}

impl From<KeptFault> for Cause {
    ghost from_gives = { λ e r. r ≡ cause_of_kept e };

    fn from(e: KeptFault) -> Cause {
        match e {
            KeptFault::Sum(f) => Cause::Coefficient(f),
            KeptFault::Full => Cause::WorkFull,
        }
    }
}

// Where a run refused: the step, 0 in loading, and three places, 0 where there is none. In loading a is the place in the first list and b
// that in the second; in a step a is j, b is i, and e is 0 for the exchange or the place of the tail term.
#[derive(Clone, Copy, PartialEq, Eq, Debug)]
pub struct Place {
    pub step: u64,
    pub a: u64,
    pub b: u64,
    pub e: u64,
}

#[derive(Clone, Copy, PartialEq, Eq, Debug)]
pub struct RunFault {
    pub cause: Cause,
    pub place: Place,
}

impl Place {
    // In loading, by the places in the first and the second list.
    pub fn loading(a: u64, b: u64) -> Place
        ensures { result ≡ loading a b }
    {
        Place {
            step: 0,
            a,
            b,
            e: 0,
        }
    }

    // In a step, by the letters exchanged and the tail term.
    pub fn stepping(step: u64, j: u64, i: u64, e: u64) -> Place
        ensures { result ≡ stepping step j i e }
    {
        Place {
            step,
            a: j,
            b: i,
            e,
        }
    }

    // A step as a whole.
    pub fn at_step(step: u64) -> Place
        ensures { result ≡ at_step step }
    {
        Place::stepping(step, 0, 0, 0)
    }
}

// A cause alone, which has no place.
impl From<Cause> for Refusal {
    ghost from_gives = { λ e r. r ≡ cause_refusal e };

    fn from(e: Cause) -> Refusal {
        match e {
            Cause::Coefficient(f) => Refusal::from(f),
            Cause::WordTooLong => Refusal::plain(11, 2),
            Cause::WorkFull => Refusal::plain(23, 2),
            Cause::ResultFull => Refusal::plain(24, 2),
            Cause::StepLimit => Refusal::plain(25, 2),
        }
    }
}

impl From<RunFault> for Refusal {
    ghost from_gives = { λ e r. r ≡ run_refusal e };

    fn from(e: RunFault) -> Refusal {
        let Place { step, a, b, e: f } = e.place;
        Refusal {
            step,
            a,
            b,
            e: f,
            ..Refusal::from(e.cause)
        }
    }
}
