// The weight of a letter: a number from 1 to 255.
ghost use Rattle.std.specs.Prelude.{◌<◌};

#[derive(Clone, Copy, PartialEq, Eq, Debug)]
pub struct WeightOutOfRange;

#[derive(Clone, Copy, PartialEq, Eq, Debug)]
pub struct Weight {
    value: u8,
    ghost positive: { 0 < value },
}

mod methods;
