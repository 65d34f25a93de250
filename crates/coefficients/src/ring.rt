// The trait of coefficient rings.
ghost use Rattle.std.specs.Prelude.{◌≡◌, length, if◌then◌else◌};
ghost use Rattle.coefficients.specs.Coding.{Coding, write_answer, filled};

use crate::fault::RingFault;

// A commutative ring with 1 ≠ 0 whose elements, some or all, have codes: numbers of 64 bits.
pub trait Ring {
    // what an implementation means
    ghost model: { Self → Coding };

    // The code of one.
    fn one(&self) -> u64
        ensures { result ≡ (model self.now).one };

    // Whether a code is in use.
    fn in_use(&self, a: u64) -> bool
        ensures { result ≡ (model self.now).used a };

    fn sum(&self, a: u64, b: u64) -> Result<u64, RingFault>
        ensures { result ≡ (model self.now).sum a b };

    fn product(&self, a: u64, b: u64) -> Result<u64, RingFault>
        ensures { result ≡ (model self.now).product a b };

    fn negative(&self, a: u64) -> Result<u64, RingFault>
        ensures { result ≡ (model self.now).negative a };

    // Fills `out` with the writing of a code, then zeros, and answers how long the writing is; refused, `out` stays as it was.
    fn write(&self, a: u64, out: &mut [u8; 80]) -> Result<usize, RingFault>
        ensures answer { result ≡ write_answer (model self.now) a }
        ensures bytes { out.new ≡ (if (model self.now).used a then filled ((model self.now).writing a) else out.old) };

    // The code that `text` is the writing of.
    fn read(&self, text: &[u8]) -> Result<u64, RingFault>
        ensures { result ≡ (model self.now).read text.now };
}
