// The coefficient rings as one type.
ghost use Rattle.std.specs.Prelude.{◌≡◌};
ghost use Rattle.choices.specs.Rings.{ring_model, residues_from, the_integers, the_q_polynomials};
ghost use Rattle.choices.specs.Writings.{WritesPlainly};

use coefficients::fault::RingFault;
use coefficients::ring::Ring;
use integers::integers::Integers;
use qpolynomials::qpolynomials::QPolynomials;
use residues::residues::{ModulusOutOfRange, Residues};

#[derive(Clone, Copy)]
pub enum AnyRing {
    Residues(Residues),
    Integers(Integers),
    QPolynomials(QPolynomials),
}

impl AnyRing {
    // The ring of residues modulo a number from 2 to 4,294,967,295.
    pub fn residues(modulus: u64) -> Result<AnyRing, ModulusOutOfRange>
        ensures { result ≡ residues_from modulus }
    {
        let ring = Residues::new(modulus)?;
        Ok(AnyRing::Residues(ring))
    }

    pub fn integers() -> AnyRing
        ensures { result ≡ the_integers }
    {
        AnyRing::Integers(Integers)
    }

    // The ring of polynomials in q over two elements.
    pub fn q_polynomials() -> AnyRing
        ensures { result ≡ the_q_polynomials }
    {
        AnyRing::QPolynomials(QPolynomials)
    }
}

// A match in each method: what hands out the ring as a `dyn` value, or writes these methods by a macro, is not accepted here.
impl Ring for AnyRing {
    ghost model = { λ k. ring_model k };

    fn one(&self) -> u64 {
        match self {
            AnyRing::Residues(ring) => ring.one(),
            AnyRing::Integers(ring) => ring.one(),
            AnyRing::QPolynomials(ring) => ring.one(),
        }
    }

    fn in_use(&self, a: u64) -> bool {
        match self {
            AnyRing::Residues(ring) => ring.in_use(a),
            AnyRing::Integers(ring) => ring.in_use(a),
            AnyRing::QPolynomials(ring) => ring.in_use(a),
        }
    }

    fn sum(&self, a: u64, b: u64) -> Result<u64, RingFault> {
        match self {
            AnyRing::Residues(ring) => ring.sum(a, b),
            AnyRing::Integers(ring) => ring.sum(a, b),
            AnyRing::QPolynomials(ring) => ring.sum(a, b),
        }
    }

    fn product(&self, a: u64, b: u64) -> Result<u64, RingFault> {
        match self {
            AnyRing::Residues(ring) => ring.product(a, b),
            AnyRing::Integers(ring) => ring.product(a, b),
            AnyRing::QPolynomials(ring) => ring.product(a, b),
        }
    }

    fn negative(&self, a: u64) -> Result<u64, RingFault> {
        match self {
            AnyRing::Residues(ring) => ring.negative(a),
            AnyRing::Integers(ring) => ring.negative(a),
            AnyRing::QPolynomials(ring) => ring.negative(a),
        }
    }

    fn write(&self, a: u64, out: &mut [u8; 80]) -> Result<usize, RingFault> {
        match self {
            AnyRing::Residues(ring) => ring.write(a, out),
            AnyRing::Integers(ring) => ring.write(a, out),
            AnyRing::QPolynomials(ring) => ring.write(a, out),
        }
    }

    fn read(&self, text: &[u8]) -> Result<u64, RingFault> {
        match self {
            AnyRing::Residues(ring) => ring.read(text),
            AnyRing::Integers(ring) => ring.read(text),
            AnyRing::QPolynomials(ring) => ring.read(text),
        }
    }
}

// What any of the rings writes has no space and no bracket.
pub fn writings_are_plain(ring: &AnyRing)
    ensures { WritesPlainly (ring_model ring.now) }
{}
