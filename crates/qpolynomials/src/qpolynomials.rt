// The ring of polynomials in q over two elements; those of degree up to 63 have codes.
ghost use Rattle.std.specs.Prelude.{◌≡◌, ℕ, ◌+◌, is_ok, nat_le};
ghost use Rattle.qpolynomials.specs.Degrees.{Degree};
ghost use Rattle.qpolynomials.specs.Product.{times};
ghost use Rattle.qpolynomials.specs.Model.{qpolynomial_coding};

use coefficients::fault::RingFault;
use coefficients::numeral::{Base, read_numeral, write_numeral};
use coefficients::ring::Ring;

#[derive(Clone, Copy)]
pub struct QPolynomials;

// The product of two polynomials of 64 bits, with no bit lost.
fn product_bits(a: u64, b: u64) -> u128
    ensures { result ≡ times a b }
{
    let mut left = a;
    let mut shifted = b as u128;
    let mut all = 0u128;
    while left != 0 {
        if left % 2 == 1 {
            all ^= shifted;
        }
        left /= 2;
        shifted *= 2;
    }
    all
}

impl Ring for QPolynomials {
    ghost model = { λ _. qpolynomial_coding };

    fn one(&self) -> u64 {
        1
    }

    fn in_use(&self, _a: u64) -> bool {
        true
    }

    fn sum(&self, a: u64, b: u64) -> Result<u64, RingFault> {
        Ok(a ^ b)
    }

    // Refused exactly where the degree of the product is above 63.
    fn product(&self, a: u64, b: u64) -> Result<u64, RingFault>
        ensures value { result ≡ qpolynomial_coding.product a b }
        ensures degree { (d e : ℕ) → Degree d a → Degree e b → is_ok result ≡ nat_le (d + e) 63 }
    {
        u64::try_from(product_bits(a, b)).map_err(|_| RingFault::NoCode)
    }

    fn negative(&self, a: u64) -> Result<u64, RingFault> {
        Ok(a)
    }

    fn write(&self, a: u64, out: &mut [u8; 80]) -> Result<usize, RingFault> {
        Ok(write_numeral(Base::Binary, false, a, out))
    }

    fn read(&self, text: &[u8]) -> Result<u64, RingFault> {
        read_numeral(Base::Binary, text).ok_or(RingFault::NoWriting)
    }
}
