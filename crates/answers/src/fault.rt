// Why a line of a script is refused: the faults of every layer below, and a form out of turn.
ghost use Rattle.std.specs.Prelude.{◌≡◌};
ghost use Rattle.answers.specs.Faults.{script_refusal, script_triple};
ghost use Rattle.answers.specs.declared.fault.ScriptFault.TheVariants.{Form, Coefficient, Word, Count, Modulus, Weight, Declare, Algebra, Decide};

use algebra::fault::{AlgebraFault, DecideFault};
use coefficients::fault::RingFault;
use grammar::fault::FormFault;
use orders::weight::WeightOutOfRange;
use refusals::Refusal;
use relations::count::CountOutOfRange;
use relations::fault::DeclareFault;
use residues::residues::ModulusOutOfRange;
use words::word::WordFault;

#[derive(Clone, Copy)]
pub enum ScriptFault {
    // the line is no form
    Form(FormFault),
    OutOfTurn,
    // a coefficient of the line that is no writing
    Coefficient(RingFault),
    // the growth of a word of the line
    Word(WordFault),
    Count(CountOutOfRange),
    Modulus(ModulusOutOfRange),
    Weight(WeightOutOfRange),
    Declare(DeclareFault),
    Algebra(AlgebraFault),
    Decide(DecideFault),
}

impl From<FormFault> for ScriptFault {
    ghost from_gives = { λ e r. r ≡ Form e };

    fn from(e: FormFault) -> ScriptFault {
        ScriptFault::Form(e)
    }
}

impl From<RingFault> for ScriptFault {
    ghost from_gives = { λ e r. r ≡ Coefficient e };

    fn from(e: RingFault) -> ScriptFault {
        ScriptFault::Coefficient(e)
    }
}

impl From<WordFault> for ScriptFault {
    ghost from_gives = { λ e r. r ≡ Word e };

    fn from(e: WordFault) -> ScriptFault {
        ScriptFault::Word(e)
    }
}

impl From<CountOutOfRange> for ScriptFault {
    ghost from_gives = { λ e r. r ≡ Count e };

    fn from(e: CountOutOfRange) -> ScriptFault {
        ScriptFault::Count(e)
    }
}

impl From<ModulusOutOfRange> for ScriptFault {
    ghost from_gives = { λ e r. r ≡ Modulus e };

    fn from(e: ModulusOutOfRange) -> ScriptFault {
        ScriptFault::Modulus(e)
    }
}

impl From<WeightOutOfRange> for ScriptFault {
    ghost from_gives = { λ e r. r ≡ Weight e };

    fn from(e: WeightOutOfRange) -> ScriptFault {
        ScriptFault::Weight(e)
    }
}

impl From<DeclareFault> for ScriptFault {
    ghost from_gives = { λ e r. r ≡ Declare e };

    fn from(e: DeclareFault) -> ScriptFault {
        ScriptFault::Declare(e)
    }
}

impl From<AlgebraFault> for ScriptFault {
    ghost from_gives = { λ e r. r ≡ Algebra e };

    fn from(e: AlgebraFault) -> ScriptFault {
        ScriptFault::Algebra(e)
    }
}

impl From<DecideFault> for ScriptFault {
    ghost from_gives = { λ e r. r ≡ Decide e };

    fn from(e: DecideFault) -> ScriptFault {
        ScriptFault::Decide(e)
    }
}

// Number, layer and places.
impl From<ScriptFault> for Refusal {
    ghost from_gives = { λ e r. r ≡ script_refusal e };

    fn from(e: ScriptFault) -> Refusal {
        match e {
            ScriptFault::Form(f) => Refusal::from(f),
            ScriptFault::OutOfTurn => Refusal::plain(26, 4),
            ScriptFault::Coefficient(f) => Refusal::from(f),
            ScriptFault::Word(f) => Refusal::from(f),
            ScriptFault::Count(f) => Refusal::from(f),
            ScriptFault::Modulus(f) => Refusal::from(f),
            ScriptFault::Weight(f) => Refusal::from(f),
            ScriptFault::Declare(f) => Refusal::from(f),
            ScriptFault::Algebra(f) => Refusal::from(f),
            ScriptFault::Decide(f) => Refusal::from(f),
        }
    }
}

impl ScriptFault {
    // The triple of a decision's fault, else zeros: every refusal is printed with one.
    pub fn triple(&self) -> (u64, u64, u64)
        ensures { result ≡ script_triple self.now }
    {
        match self {
            ScriptFault::Decide(f) => (f.i, f.j, f.k),
            _ => (0, 0, 0),
        }
    }
}
