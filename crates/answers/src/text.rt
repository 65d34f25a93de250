// Answers that are text: what a line reports, and why it is refused.
ghost use Rattle.std.specs.Prelude.{◌≡◌, ◌++◌, Some, IfSome, OnOk};
ghost use Rattle.answers.specs.Text.{report_bytes, refused_bytes};

use crate::fault::ScriptFault;
use algebra::verdict::Verdict;
use refusals::Refusal;
use std::alloc::AllocError;
use std::fmt;
use std::fmt::Display;

// What is answered where an algebra was opened, a relation declared or an algebra decided.
#[derive(Clone, Copy)]
pub enum Report {
    Opened,
    Declared,
    Decided(Verdict),
}

// An algebra that is not decided is no answer.
impl Display for Report {
    ghost output = { λ r. Some (report_bytes r) };

    fn fmt<W: fmt::Write>(&self, f: &mut fmt::Formatter<W>) -> fmt::Result {
        match self {
            Report::Opened => write!(f, "(opened)"),
            Report::Declared => write!(f, "(declared)"),
            Report::Decided(Verdict::Undecided) => Ok(()),
            Report::Decided(Verdict::Sound) => write!(f, "(sound)"),
            Report::Decided(Verdict::Degenerate(i, j, k)) => write!(f, "(degenerate {i} {j} {k})"),
        }
    }
}

// What is answered where the line of this number is refused.
#[derive(Clone, Copy)]
pub struct RefusedLine {
    pub number: u64,
    pub fault: ScriptFault,
}

// Number, layer, the line, the places, the triple.
impl Display for RefusedLine {
    ghost output = { λ r. Some (refused_bytes r.number r.fault) };

    fn fmt<W: fmt::Write>(&self, f: &mut fmt::Formatter<W>) -> fmt::Result {
        let line = self.number;
        let Refusal {
            number,
            layer,
            step,
            a,
            b,
            e,
        } = Refusal::from(self.fault);
        let (i, j, k) = self.fault.triple();
        write!(
            f,
            "(refused {number} {layer} {line} {step} {a} {b} {e} {i} {j} {k})"
        )
    }
}

// Appends what a value prints.
pub fn push_printed<T: Display>(out: &mut Vec<u8>, value: &T) -> Result<(), AllocError>
    ensures { OnOk result (IfSome (T.output value.now) (λ text. out.new.items ≡ out.old.items ++ text)) }
{
    let text = value.to_string(*out.allocator())?;
    out.extend_from_slice(text.as_bytes())
}
