// Reading the bytes of a line from the left: parts, numbers, generators, coefficients, fixed bytes.
ghost use Rattle.std.specs.Prelude.{◌≡◌, ◌≤◌, length};
ghost use Rattle.std.specs.Fn.{FnOnceReturnsAt};
ghost use Rattle.grammar.specs.Reading.{seen, seen_pair, seen_rest, atom_length, number_of, generator_of, Forms, CoefficientIn};
ghost use Rattle.grammar.specs.Reading.{expect as expected, read_atom, read_number, read_spaced_number, read_generator, read_coefficient, read_next};

use crate::fault::ReadFault;
use coefficients::numeral::{Base, read_numeral};

// How many bytes come before the first space or bracket.
fn atom_end(s: &[u8]) -> usize
    ensures value { result ≡ atom_length s.now }
    ensures bound { result ≤ length s.now }
{
    let end = s.iter().position(|b| matches!(*b, b' ' | b'(' | b')'));
    end.unwrap_or(s.len())
}

// The bytes up to the next space or bracket, at least one.
pub(crate) fn atom(s: &[u8]) -> Result<(&[u8], &[u8]), ReadFault>
    ensures { seen_pair result ≡ read_atom s.now }
{
    let (part, rest) = s.split_at(atom_end(s));
    if part.is_empty() {
        return Err(ReadFault::Misfit);
    }
    Ok((part, rest))
}

// What stands behind the wanted bytes.
pub(crate) fn take_bytes<'a>(s: &'a [u8], wanted: &[u8]) -> Result<&'a [u8], ReadFault>
    ensures { seen_rest result ≡ expected wanted.now s.now }
{
    s.strip_prefix(wanted).ok_or(ReadFault::Misfit)
}

// The number that these bytes write in at most ten digits.
fn number_in(a: &[u8]) -> Option<u64>
    ensures { result ≡ number_of a.now }
{
    if a.len() > 10 {
        return None;
    }
    read_numeral(Base::Decimal, a)
}

// An atom, and what it stands for.
fn formed<'a, X, F: FnOnce(&'a [u8]) -> Option<X>>(
    s: &'a [u8],
    of: F,
) -> Result<(X, &'a [u8]), ReadFault>
    requires { F.IsAlwaysCallable of }
    ensures { Forms (FnOnceReturnsAt F.FnOnce of) (read_atom s.now) result }
{
    let (a, rest) = atom(s)?;
    let x = of(a).ok_or(ReadFault::Misfit)?;
    Ok((x, rest))
}

pub(crate) fn number(s: &[u8]) -> Result<(u64, &[u8]), ReadFault>
    ensures { seen result ≡ read_number s.now }
{
    formed(s, number_in)
}

// A number and the space behind it.
pub(crate) fn spaced_number(s: &[u8]) -> Result<(u64, &[u8]), ReadFault>
    ensures { seen result ≡ read_spaced_number s.now }
{
    let (n, after) = number(s)?;
    let rest = take_bytes(after, b" ")?;
    Ok((n, rest))
}

// The number of the generator that these bytes are, if they are one.
pub(crate) fn generator_in(a: &[u8]) -> Option<u64>
    ensures { result ≡ generator_of a.now }
{
    number_in(a.strip_prefix(b"x")?)
}

pub(crate) fn generator(s: &[u8]) -> Result<(u64, &[u8]), ReadFault>
    ensures { seen result ≡ read_generator s.now }
{
    formed(s, generator_in)
}

// These bytes, if they are no generator.
fn coefficient_in(a: &[u8]) -> Option<&[u8]>
    ensures { CoefficientIn a.now result }
{
    generator_in(a).is_none().then_some(a)
}

pub(crate) fn coefficient(s: &[u8]) -> Result<(&[u8], &[u8]), ReadFault>
    ensures { seen_pair result ≡ read_coefficient s.now }
{
    formed(s, coefficient_in)
}

// What comes after a part of a list. As of every reader, the bytes that are left stand beside the value.
#[derive(Clone, Copy)]
pub enum Next {
    Part,
    End,
}

pub(crate) fn next_part(s: &[u8]) -> Result<(Next, &[u8]), ReadFault>
    ensures { seen result ≡ read_next s.now }
{
    match s {
        [b')', rest @ ..] => Ok((Next::End, rest)),
        [b' ', rest @ ..] => Ok((Next::Part, rest)),
        _ => Err(ReadFault::Misfit),
    }
}
