// What the ring of residues answers.
ghost use Rattle.std.specs.Prelude.{◌≡◌, ◌<◌, ◌≤◌, true, false, MatchResult};
ghost use Rattle.coefficients.specs.declared.fault.RingFault.TheVariants.{NotInUse};
ghost use Rattle.residues.specs.Modulus.{is_modulus, modulus_refusal};
ghost use Rattle.residues.specs.Model.{residue_coding};

use crate::residues::{ModulusOutOfRange, Residues};
use coefficients::fault::RingFault;
use coefficients::numeral::{Base, read_numeral, write_numeral};
use coefficients::ring::Ring;
use refusals::Refusal;

impl From<ModulusOutOfRange> for Refusal {
    ghost from_gives = { λ fault refusal. refusal ≡ modulus_refusal fault };

    fn from(_fault: ModulusOutOfRange) -> Refusal {
        Refusal::plain(9, 1)
    }
}

impl Residues {
    pub fn new(modulus: u64) -> Result<Residues, ModulusOutOfRange>
        ensures { MatchResult result (λ k. (is_modulus modulus ≡ true) × (k.modulus ≡ modulus)) (λ _. is_modulus modulus ≡ false) }
    {
        if !(2..=4294967295).contains(&modulus) {
            return Err(ModulusOutOfRange);
        }
        Ok(Residues { modulus })
    }

    // The code, if it is in use.
    fn used(&self, a: u64) -> Result<u64, RingFault>
        ensures { MatchResult result (λ c. (c ≡ a) × (a < self.now.modulus)) (λ e. (e ≡ NotInUse) × (self.now.modulus ≤ a)) }
    {
        if a < self.modulus {
            Ok(a)
        } else {
            Err(RingFault::NotInUse)
        }
    }
}

impl Ring for Residues {
    ghost model = { λ k. residue_coding k.modulus k.range.0 k.range.1 };

    fn one(&self) -> u64 {
        1
    }

    fn in_use(&self, a: u64) -> bool {
        a < self.modulus
    }

    fn sum(&self, a: u64, b: u64) -> Result<u64, RingFault> {
        let (a, b) = (self.used(a)?, self.used(b)?);
        Ok((a + b) % self.modulus)
    }

    fn product(&self, a: u64, b: u64) -> Result<u64, RingFault> {
        let (a, b) = (self.used(a)?, self.used(b)?);
        Ok(a * b % self.modulus)
    }

    fn negative(&self, a: u64) -> Result<u64, RingFault> {
        let a = self.used(a)?;
        Ok((self.modulus - a) % self.modulus)
    }

    fn write(&self, a: u64, out: &mut [u8; 80]) -> Result<usize, RingFault> {
        let a = self.used(a)?;
        Ok(write_numeral(Base::Decimal, false, a, out))
    }

    fn read(&self, text: &[u8]) -> Result<u64, RingFault> {
        read_numeral(Base::Decimal, text)
            .filter(|a| *a < self.modulus)
            .ok_or(RingFault::NoWriting)
    }
}
