// Terms from text, and what is printed.
use algebra::verdict::Verdict;
use answers::failure::Failure;
use answers::fault::ScriptFault;
use answers::list::push_list;
use answers::text::push_printed;
use coefficients::ring::Ring;
use refusals::Refusal;
use std::alloc::{AllocError, Global};
use std::fmt;
use words::term::Term;
use words::word::Word;

// The term with these letters whose coefficient is written so.
pub fn term<R: Ring>(ring: &R, coefficient: &[u8], letters: &[u64]) -> Result<Term, ScriptFault> {
    let code = ring.read(coefficient)?;
    let mut word = Word::empty();
    for letter in letters {
        word.push(*letter)?;
    }
    let row = word.row();
    Ok(Term { row, code })
}

// The operands of a calculation, its terms, and how many steps it took.
pub fn calculation_line<R: Ring>(
    heap: Global,
    ring: &R,
    operands: &[Term],
    terms: &[Term],
    steps: u64,
) -> Result<Vec<u8>, AllocError> {
    let mut line = Vec::new(heap);
    for operand in operands {
        push_list(&mut line, ring, &[*operand])?;
        line.push(b' ')?;
    }
    line.extend_from_slice(b"= ")?;
    push_list(&mut line, ring, terms)?;
    line.extend_from_slice(format!(in heap; " in {steps} steps\n")?.as_bytes())?;
    Ok(line)
}

// A verdict as it is printed, a whole line: so there is no part of one where memory runs out.
#[derive(Clone, Copy)]
pub struct VerdictLine(pub Verdict);

impl fmt::Display for VerdictLine {
    fn fmt<W: fmt::Write>(&self, f: &mut fmt::Formatter<W>) -> fmt::Result {
        match self.0 {
            Verdict::Undecided => write!(f, "undecided\n"),
            Verdict::Sound => write!(f, "sound\n"),
            Verdict::Degenerate(i, j, k) => write!(f, "degenerate {i} {j} {k}\n"),
        }
    }
}

// Why something was not calculated, as it is printed.
#[derive(Clone, Copy)]
pub struct FailureText(pub Failure);

impl fmt::Display for FailureText {
    fn fmt<W: fmt::Write>(&self, f: &mut fmt::Formatter<W>) -> fmt::Result {
        match self.0 {
            Failure::Refused(fault) => {
                let Refusal {
                    number,
                    layer,
                    step,
                    a,
                    b,
                    e,
                } = Refusal::from(fault);
                write!(
                    f,
                    "refused {number}, layer {layer}, step {step}, a {a}, b {b}, e {e}"
                )
            }
            Failure::Memory(_) => write!(f, "no memory"),
        }
    }
}
