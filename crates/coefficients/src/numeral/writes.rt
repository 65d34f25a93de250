// Numerals in 80 bytes.
ghost use Rattle.std.specs.Prelude.{◌≡◌, ◌+◌, ◌≤◌, ◌++◌, length, replicate};
ghost use Rattle.coefficients.specs.Coding.{filled};
ghost use Rattle.coefficients.specs.Numerals.{radix as radix_of, numeral, signed_numeral};

use crate::numeral::Base;

// Puts the numeral of n at the end of eighty zeros, and answers where it begins.
fn spell(base: Base, n: u64, out: &mut [u8; 80]) -> usize
    requires { out.old ≡ replicate 80 0 }
    ensures bytes { out.new ≡ replicate result 0 ++ numeral (radix_of base) n }
    ensures least { 1 ≤ result }
    ensures greatest { result ≤ 80 }
{
    let radix = base.radix();
    let mut rest = n;
    // digits are worked out from the last to the first, and the place of the first is answered
    let mut at = 80usize;
    while rest >= radix {
        at -= 1;
        out[at] = b'0' + (rest % radix) as u8;
        rest /= radix;
    }
    at -= 1;
    out[at] = b'0' + rest as u8;
    at
}

// Fills `out` with the numeral of n, behind a minus sign where it is asked for, then zeros, and answers how long the text is.
pub fn write_numeral(base: Base, minus: bool, n: u64, out: &mut [u8; 80]) -> usize
    ensures bytes { out.new ≡ filled (signed_numeral (radix_of base) minus n) }
    ensures len { result ≡ length (signed_numeral (radix_of base) minus n) }
{
    *out = [0; 80];
    let mut at = spell(base, n, out);
    if minus {
        at -= 1;
        out[at] = b'-';
    }
    out.rotate_left(at);
    80 - at
}
