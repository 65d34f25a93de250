// The ring of integers; those of at most 31 bits and a sign have codes.
ghost use Rattle.std.specs.Prelude.{◌≡◌, ◌<◌, ◌≤◌, Some, IfOk, MatchResult, unsigned_abs};
ghost use Rattle.coefficients.specs.Numbering.{code_below};
ghost use Rattle.coefficients.specs.declared.fault.RingFault.TheVariants.{NotInUse};
ghost use Rattle.integers.specs.Model.{code_bound, integer, integer_number, integer_coding, negative_code, natural_code};

use coefficients::fault::RingFault;
use coefficients::numeral::{Base, read_numeral, write_numeral};
use coefficients::ring::Ring;

#[derive(Clone, Copy)]
pub struct Integers;

// The codes in use are those below this one.
const CODES: u64 = 4294967295;

// The greatest integer that has a code.
const GREATEST: u64 = 2147483647;

// The integer that a code means, if it is in use.
fn value(a: u64) -> Result<i64, RingFault>
    ensures value { MatchResult result (λ x. (a < code_bound) × (x ≡ integer a)) (λ e. (code_bound ≤ a) × (e ≡ NotInUse)) }
    ensures bound { IfOk result (λ x. unsigned_abs x ≤ 2147483647) }
{
    if a >= CODES {
        return Err(RingFault::NotInUse);
    }
    let half = (a / 2) as i64;
    Ok(if a % 2 == 0 { half } else { -1 - half })
}

// The code of an integer, if it has one.
fn code(z: i64) -> Result<u64, RingFault>
    ensures { result ≡ code_below code_bound (integer_number z) }
{
    let n = z.unsigned_abs();
    let code = if z < 0 {
        code_of_negative(n)
    } else {
        code_of_natural(n)
    };
    code.ok_or(RingFault::NoCode)
}

// The code of −n, for n from 1.
fn code_of_negative(n: u64) -> Option<u64>
    ensures { result ≡ negative_code (Some n) }
{
    (n > 0 && n <= GREATEST).then(|| n * 2 - 1)
}

// The code of n.
fn code_of_natural(n: u64) -> Option<u64>
    ensures { result ≡ natural_code (Some n) }
{
    (n <= GREATEST).then(|| n * 2)
}

impl Ring for Integers {
    ghost model = { λ _. integer_coding };

    fn one(&self) -> u64 {
        2
    }

    fn in_use(&self, a: u64) -> bool {
        a < CODES
    }

    fn sum(&self, a: u64, b: u64) -> Result<u64, RingFault> {
        let (x, y) = (value(a)?, value(b)?);
        code(x + y)
    }

    fn product(&self, a: u64, b: u64) -> Result<u64, RingFault> {
        let (x, y) = (value(a)?, value(b)?);
        code(x * y)
    }

    fn negative(&self, a: u64) -> Result<u64, RingFault> {
        let x = value(a)?;
        code(-x)
    }

    fn write(&self, a: u64, out: &mut [u8; 80]) -> Result<usize, RingFault> {
        let x = value(a)?;
        Ok(write_numeral(Base::Decimal, x < 0, x.unsigned_abs(), out))
    }

    fn read(&self, text: &[u8]) -> Result<u64, RingFault> {
        match text {
            [b'-', digits @ ..] => read_numeral(Base::Decimal, digits).and_then(code_of_negative),
            _ => read_numeral(Base::Decimal, text).and_then(code_of_natural),
        }
        .ok_or(RingFault::NoWriting)
    }
}
