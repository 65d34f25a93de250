// The number that a numeral writes.
ghost use Rattle.std.specs.Prelude.{◌≡◌, ◌-◌, ◌≤◌, Some, None, if◌then◌else◌};
ghost use Rattle.coefficients.specs.Numerals.{radix as radix_of, is_digit, read_digits, read_numeral};

use crate::numeral::Base;

impl Base {
    pub fn radix(self) -> u64
        ensures value { result ≡ radix_of self }
        ensures least { 2 ≤ result }
        ensures greatest { result ≤ 10 }
    {
        match self {
            Base::Binary => 2,
            Base::Decimal => 10,
        }
    }
}

// The value of a digit of the base.
fn digit_value(base: Base, c: u8) -> Option<u64>
    ensures { result ≡ (if is_digit (radix_of base) c then Some (c - 48) else None) }
{
    let d = u64::from(c.checked_sub(b'0')?);
    (d < base.radix()).then_some(d)
}

// The number of 64 bits that the digits write, if all are digits of the base.
#[tactic(auto, using(crate::proofs::Reading::digits_more, crate::proofs::Reading::digits_all))]
fn digits_value(base: Base, text: &[u8]) -> Option<u64>
    ensures { result ≡ read_digits (radix_of base) 0 text.now }
{
    let mut n = 0u64;
    for c in text {
        let digit = digit_value(base, *c)?;
        n = n.checked_mul(base.radix())?.checked_add(digit)?;
    }
    Some(n)
}

// The number of 64 bits whose numeral `text` is.
#[tactic(auto, using(crate::proofs::Reading::read_lean))]
pub fn read_numeral(base: Base, text: &[u8]) -> Option<u64>
    ensures { result ≡ read_numeral (radix_of base) text.now }
{
    let (first, rest) = text.split_first()?;
    if *first == b'0' && !rest.is_empty() {
        return None;
    }
    digits_value(base, text)
}
