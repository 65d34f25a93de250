// Steps of a session with an algebra, from its declarations to a calculation in it.
use crate::text::{VerdictLine, calculation_line, term};
use algebra::close::close;
use algebra::closed::Closed;
use answers::failure::Failure;
use answers::fault::ScriptFault;
use answers::text::push_printed;
use coefficients::ring::Ring;
use orders::order::MonomialOrder;
use relations::open::Open;
use std::alloc::Global;
use words::term::Term;

const PLACES: usize = 64;

// x_j x_i = factor x_i x_j, and a term more if there is one: its coefficient and its letters.
pub fn declare<R: Ring, O: MonomialOrder>(
    open: &mut Open<R, O>,
    j: u64,
    i: u64,
    factor: &[u8],
    tail: Option<(&[u8], &[u64])>,
) -> Result<(), ScriptFault> {
    let ring = open.ring();
    let code = ring.read(factor)?;
    let last = tail
        .map(|(coefficient, letters)| term(ring, coefficient, letters))
        .transpose()?;
    open.declare(j, i, code, last.as_slice())?;
    Ok(())
}

// What is calculated with words, given by their letters.
#[derive(Clone, Copy)]
pub enum Calculation<'a> {
    NormalForm(&'a [u64]),
    Product(&'a [u64], &'a [u64]),
}

// The line of a calculation in an algebra.
fn calculated<R: Ring, O: MonomialOrder>(
    heap: Global,
    algebra: &Closed<R, O>,
    calculation: Calculation,
) -> Result<Vec<u8>, Failure> {
    let ring = algebra.ring();
    let mut work = [Term::blank(); PLACES];
    let mut out = [Term::blank(); PLACES];
    match calculation {
        Calculation::NormalForm(letters) => {
            let f = [term(ring, b"1", letters)?];
            let (n, steps) = algebra.normalise(&f, &mut work, &mut out)?;
            Ok(calculation_line(heap, ring, &f, &out[..n], steps)?)
        }
        Calculation::Product(first, second) => {
            let f = term(ring, b"1", first)?;
            let g = term(ring, b"1", second)?;
            let (n, steps) = algebra.product(&[f], &[g], &mut work, &mut out)?;
            Ok(calculation_line(heap, ring, &[f, g], &out[..n], steps)?)
        }
    }
}

// Closes an algebra, decides it and calculates in it; appends the verdict and the line of the calculation.
pub fn tell<R: Ring + Drop, O: MonomialOrder + Drop>(
    heap: Global,
    open: Result<Open<R, O>, ScriptFault>,
    calculation: Calculation,
    told: &mut Vec<u8>,
) -> Result<(), Failure> {
    let mut algebra = close(open?);
    let mut work = [Term::blank(); PLACES];
    let mut out = [Term::blank(); PLACES];
    let verdict = algebra.decide(&mut work, &mut out)?;
    push_printed(told, &VerdictLine(verdict))?;
    let line = calculated(heap, &algebra, calculation)?;
    told.extend_from_slice(line.as_slice())?;
    Ok(())
}
