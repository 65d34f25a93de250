// What every refusal of the calculator says. Each layer has an enum of its own faults, and one definition in its specs/ that gives,
// case by case, the refusal of a fault.
#![tactic(auto)]

ghost use Rattle.std.specs.Prelude.{◌≡◌};
ghost use Rattle.refusals.specs.Refusals.{plain as placeless};

// Its number, the layer that refuses, and four places; 0 where there is no place. These are the numbers that are printed: what is refused is
// an enum in each layer.
#[derive(Clone, Copy, PartialEq, Eq, Debug)]
pub struct Refusal {
    pub number: u8,
    pub layer: u8,
    pub step: u64,
    pub a: u64,
    pub b: u64,
    pub e: u64,
}

impl Refusal {
    // A refusal that has no places.
    pub fn plain(number: u8, layer: u8) -> Refusal
        ensures { result ≡ placeless number layer }
    {
        Refusal {
            number,
            layer,
            step: 0,
            a: 0,
            b: 0,
            e: 0,
        }
    }
}
