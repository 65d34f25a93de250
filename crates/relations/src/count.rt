// The number of generators, from 1 to 8.
ghost use Rattle.std.specs.Prelude.{◌≤◌};

#[derive(Clone, Copy, PartialEq, Eq, Debug)]
pub struct Count {
    n: u64,
    ghost range: { (1 ≤ n) × (n ≤ 8) },
}

#[derive(Clone, Copy, PartialEq, Eq, Debug)]
pub struct CountOutOfRange;

mod methods;
