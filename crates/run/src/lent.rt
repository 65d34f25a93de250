// Rings and orders that are lent.
use coefficients::fault::RingFault;
use coefficients::ring::Ring;
use orders::image::Image;
use orders::order::MonomialOrder;
use std::cmp::Ordering;

// A ring or an order by a reference to it, for calls that take theirs by value.
#[derive(Clone, Copy)]
pub struct Lent<'a, T>(pub &'a T);

impl<'a, R: Ring> Ring for Lent<'a, R> {
    ghost model = { λ l. R.model l.0.now };

    fn one(&self) -> u64 {
        self.0.one()
    }

    fn in_use(&self, a: u64) -> bool {
        self.0.in_use(a)
    }

    fn sum(&self, a: u64, b: u64) -> Result<u64, RingFault> {
        self.0.sum(a, b)
    }

    fn product(&self, a: u64, b: u64) -> Result<u64, RingFault> {
        self.0.product(a, b)
    }

    fn negative(&self, a: u64) -> Result<u64, RingFault> {
        self.0.negative(a)
    }

    fn write(&self, a: u64, out: &mut [u8; 80]) -> Result<usize, RingFault> {
        self.0.write(a, out)
    }

    fn read(&self, text: &[u8]) -> Result<u64, RingFault> {
        self.0.read(text)
    }
}

impl<'a, O: MonomialOrder> MonomialOrder for Lent<'a, O> {
    ghost model = { λ l. O.model l.0.now };

    fn compare(&self, a: &Image, b: &Image) -> Ordering {
        self.0.compare(a, b)
    }
}
