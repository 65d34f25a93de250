// Every text of one to three bytes: read as the rings read it, and in a second way.
use coefficients::fault::RingFault;
use coefficients::ring::Ring;
use integers::integers::Integers;
use qpolynomials::qpolynomials::QPolynomials;
use residues::residues::{ModulusOutOfRange, Residues};
use std::process::Abort;
use std::test::Fail;

// What the codes of a ring are written as.
#[derive(Clone, Copy)]
enum Writing {
    // decimal numbers below the modulus
    Below(u64),
    Signed,
    Binary,
}

// The digit of a base that a byte is, if it is one.
fn digit(base: u64, c: u8) -> Option<u64> {
    match c {
        b'0'..=b'9' => Some((c - b'0') as u64).filter(|d| *d < base),
        _ => None,
    }
}

// The number that one to three digits write, without a needless leading zero.
fn number(base: u64, text: &[u8]) -> Option<u64> {
    let (a, b, c) = match text {
        [c] => (0, 0, digit(base, *c)?),
        [b'0', ..] => return None,
        [b, c] => (0, digit(base, *b)?, digit(base, *c)?),
        [a, b, c] => (digit(base, *a)?, digit(base, *b)?, digit(base, *c)?),
        _ => return None,
    };
    Some(
        a.wrapping_mul(base.wrapping_mul(base))
            .wrapping_add(b.wrapping_mul(base))
            .wrapping_add(c),
    )
}

fn code(writing: Writing, text: &[u8]) -> Option<u64> {
    match writing {
        Writing::Below(m) => number(10, text).filter(|n| *n < m),
        Writing::Binary => number(2, text),
        Writing::Signed => match text {
            [b'-', digits @ ..] => number(10, digits)
                .filter(|n| *n > 0)
                .map(|n| n.wrapping_mul(2).wrapping_sub(1)),
            _ => number(10, text).map(|n| n.wrapping_mul(2)),
        },
    }
}

fn agrees<R: Ring>(rt: &impl Abort, ring: &R, writing: Writing, text: &[u8]) -> Result<(), Fail> {
    assert_eq!(rt;
        ring.read(text),
        code(writing, text).ok_or(RingFault::NoWriting)
    );
    Ok(())
}

fn all_texts<R: Ring>(rt: &impl Abort, ring: &R, writing: Writing) -> Result<(), Fail> {
    agrees(rt, ring, writing, &[])?;
    for a in 0..=255u8 {
        agrees(rt, ring, writing, &[a])?;
        for b in 0..=255u8 {
            agrees(rt, ring, writing, &[a, b])?;
            for c in 0..=255u8 {
                agrees(rt, ring, writing, &[a, b, c])?;
            }
        }
    }
    Ok(())
}

#[test]
fn residues(rt: HostRuntime) -> Result<(), Fail> {
    all_texts(&rt, &Residues::new(2)?, Writing::Below(2))?;
    all_texts(&rt, &Residues::new(101)?, Writing::Below(101))
}

#[test]
fn integers(rt: HostRuntime) -> Result<(), Fail> {
    all_texts(&rt, &Integers, Writing::Signed)
}

#[test]
fn qpolynomials(rt: HostRuntime) -> Result<(), Fail> {
    all_texts(&rt, &QPolynomials, Writing::Binary)
}
