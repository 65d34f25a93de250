// Reading and writing undo each other, in every ring.
ghost use Rattle.std.specs.Prelude.{◌≡◌, ◌≤◌, length, Ok};
ghost use Rattle.coefficients.specs.RoundTrips.{written_again, text_after};
ghost use Rattle.coefficients.specs.Numbering.{when_in_use};

use crate::fault::RingFault;
use crate::ring::Ring;

// Reads a text and writes the code that it says: what is written is the text.
pub fn write_again<R: Ring>(ring: &R, text: &[u8], out: &mut [u8; 80]) -> Result<usize, RingFault>
    ensures answer { result ≡ written_again (R.model ring.now) text.now }
    ensures bytes { out.new ≡ text_after (R.model ring.now) text.now out.old }
{
    let a = ring.read(text)?;
    ring.write(a, out)
}

// Writes a code and reads what was written: what is read is the code.
pub fn read_again<R: Ring>(ring: &R, a: u64) -> Result<u64, RingFault>
    ensures { result ≡ when_in_use ((R.model ring.now).used a) (Ok a) }
{
    let mut out = [0u8; 80];
    let n = ring.write(a, &mut out)?;
    ring.read(&out[0..n])
}
