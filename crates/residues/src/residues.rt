// The ring of residues modulo m, for m from 2 to 4,294,967,295.
ghost use Rattle.std.specs.Prelude.{◌≡◌, ◌^◌, ◌<◌, ◌≤◌};

#[derive(Clone, Copy)]
pub struct Residues {
    modulus: u64,
    ghost range: { (2 ≤ modulus) × (modulus < 2 ^ 32) },
}

// The modulus is not from 2 to 4,294,967,295.
#[derive(Clone, Copy, PartialEq, Eq, Debug)]
pub struct ModulusOutOfRange;

mod methods;
