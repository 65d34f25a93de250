// Lists of terms as answers, appended to what is written already. A ring writes bytes, which need not be text, so a list is no `Display`.
ghost use Rattle.std.specs.Prelude.{◌≡◌, ◌++◌, Some, OnOk};
ghost use Rattle.orders.specs.Letters.{letters};
ghost use Rattle.choices.specs.Rings.{ring_model};
ghost use Rattle.answers.specs.Laws.{ToldApart};
ghost use Rattle.answers.specs.Text.{letters_bytes, written, term_bytes, terms_bytes, list_bytes};

use crate::text::push_printed;
use choices::ring::AnyRing;
use coefficients::ring::Ring;
use orders::letter::is_letter;
use std::alloc::AllocError;
use std::fmt;
use std::fmt::Display;
use words::term::Term;

// The letters of a row, each as x and its number behind a space.
#[derive(Clone, Copy)]
struct Letters<'a>(&'a [u8]);

impl<'a> Display for Letters<'a> {
    ghost output = { λ w. Some (letters_bytes (letters w.0.now)) };

    fn fmt<W: fmt::Write>(&self, f: &mut fmt::Formatter<W>) -> fmt::Result {
        for x in self.0 {
            if !is_letter(*x) {
                break;
            }
            write!(f, " x{x}")?;
        }
        Ok(())
    }
}

// The writing of a code, and nothing where it is not in use.
fn push_code<R: Ring>(out: &mut Vec<u8>, ring: &R, code: u64) -> Result<(), AllocError>
    ensures { OnOk result (out.new.items ≡ out.old.items ++ written (R.model ring.now) code) }
{
    let mut writing = [0u8; 80];
    if let Ok(n) = ring.write(code, &mut writing) {
        out.extend_from_slice(&writing[..n])?;
    }
    Ok(())
}

fn push_term<R: Ring>(out: &mut Vec<u8>, ring: &R, term: &Term) -> Result<(), AllocError>
    ensures { OnOk result (out.new.items ≡ out.old.items ++ term_bytes (R.model ring.now) term.now) }
{
    out.push(b'(')?;
    push_code(out, ring, term.code)?;
    push_printed(out, &Letters(&term.row))?;
    out.push(b')')?;
    Ok(())
}

// Each term behind a space.
fn push_terms<R: Ring>(out: &mut Vec<u8>, ring: &R, terms: &[Term]) -> Result<(), AllocError>
    ensures { OnOk result (out.new.items ≡ out.old.items ++ terms_bytes (R.model ring.now) terms.now) }
{
    for term in terms {
        out.push(b' ')?;
        push_term(out, ring, term)?;
    }
    Ok(())
}

pub fn push_list<R: Ring>(out: &mut Vec<u8>, ring: &R, terms: &[Term]) -> Result<(), AllocError>
    ensures { OnOk result (out.new.items ≡ out.old.items ++ list_bytes (R.model ring.now) terms.now) }
{
    out.extend_from_slice(b"(list")?;
    push_terms(out, ring, terms)?;
    out.push(b')')?;
    Ok(())
}

// Lists over any of the rings have equal bytes exactly where they are equal.
pub fn lists_are_told_apart(ring: &AnyRing)
    ensures { ToldApart (ring_model ring.now) }
{}
