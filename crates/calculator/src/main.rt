// The calculator. It declares relations, decides whether they agree, normalises and multiplies; it shows relations that do not agree being refused.
#![tactic(auto)]

mod session;
mod text;

use answers::fault::ScriptFault;
use coefficients::ring::Ring;
use integers::integers::Integers;
use orders::degree::Degree;
use orders::order::{Lex, MonomialOrder};
use orders::weight::Weight;
use qpolynomials::qpolynomials::QPolynomials;
use relations::count::Count;
use relations::open::Open;
use residues::residues::Residues;
use session::{Calculation, declare, tell};
use std::io;
use std::io::Write;
use text::FailureText;

// U(sl2), x1, x2 and x3 for e, f and h; the tail of x2 x1 is `minus` times x3, that of x3 x2 `last` times x2.
fn sl2<R: Ring + Drop, O: MonomialOrder + Drop>(
    ring: R,
    order: O,
    minus: &[u8],
    last: &[u8],
) -> Result<Open<R, O>, ScriptFault> {
    let mut open = Open::new(Count::try_from(3)?, ring, order);
    declare(&mut open, 2, 1, b"1", Some((minus, &[3])))?;
    declare(&mut open, 3, 1, b"1", Some((b"2", &[1])))?;
    declare(&mut open, 3, 2, b"1", Some((last, &[2])))?;
    Ok(open)
}

// x2 x1 = x1 x2 and a term with coefficient one.
fn pair<R: Ring + Drop, O: MonomialOrder + Drop>(
    ring: R,
    order: O,
    letters: &[u64],
) -> Result<Open<R, O>, ScriptFault> {
    let mut open = Open::new(Count::try_from(2)?, ring, order);
    declare(&mut open, 2, 1, b"1", Some((b"1", letters)))?;
    Ok(open)
}

// x2 x1 = q x1 x2.
fn plane() -> Result<Open<QPolynomials, Lex>, ScriptFault> {
    let mut open = Open::new(Count::try_from(2)?, QPolynomials, Lex);
    declare(&mut open, 2, 1, b"10", None)?;
    Ok(open)
}

// The order by length.
fn by_length() -> Result<Degree, ScriptFault> {
    Ok(Degree::new([Weight::try_from(1)?; 8]))
}

fn weyl() -> Result<Open<Integers, Degree>, ScriptFault> {
    pair(Integers, by_length()?, &[])
}

fn late_tail() -> Result<Open<Integers, Degree>, ScriptFault> {
    pair(Integers, by_length()?, &[2, 2, 2])
}

fn sl2_over_integers(last: &[u8]) -> Result<Open<Integers, Degree>, ScriptFault> {
    sl2(Integers, by_length()?, b"-1", last)
}

fn sl2_modulo_7() -> Result<Open<Residues, Degree>, ScriptFault> {
    sl2(Residues::new(7)?, by_length()?, b"6", b"5")
}

// Prints a title, the verdict on an algebra and what a calculation in it comes to, or why it came to nothing.
fn show<R: Ring + Drop, O: MonomialOrder + Drop>(
    rt: &HostRuntime,
    title: &str,
    open: Result<Open<R, O>, ScriptFault>,
    calculation: Calculation,
) -> io::Result<()> {
    println!(rt; "{title}")?;
    let mut told = Vec::new(rt.alloc());
    let ended = tell(rt.alloc(), open, calculation, &mut told);
    rt.stdout().write_all(told.as_slice())?;
    match ended {
        Ok(()) => Ok(()),
        Err(failure) => rt.println(FailureText(failure)),
    }
}

fn main(rt: HostRuntime) -> io::Result<()> {
    let word = Calculation::NormalForm(&[2, 2, 1, 1]);
    let squares = Calculation::Product(&[2, 2], &[1, 1]);
    show(&rt, "Weyl algebra over the integers", weyl(), word)?;
    show(&rt, "quantum plane over q-polynomials", plane(), squares)?;
    show(
        &rt,
        "U(sl2) over the integers",
        sl2_over_integers(b"-2"),
        squares,
    )?;
    show(
        &rt,
        "U(sl2) over residues modulo 7",
        sl2_modulo_7(),
        squares,
    )?;
    show(
        &rt,
        "U(sl2) with half of a tail",
        sl2_over_integers(b"-1"),
        squares,
    )?;
    show(
        &rt,
        "a tail that does not come before x1 x2",
        late_tail(),
        word,
    )
}
