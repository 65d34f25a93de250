// Two letters that a relation exchanges.
ghost use Rattle.std.specs.Prelude.{◌<◌};

use orders::letter::Letter;

// x_j and x_i, the greater letter first.
#[derive(Clone, Copy)]
pub(crate) struct Pair {
    pub(crate) j: Letter,
    pub(crate) i: Letter,
    ghost falls: { i.number < j.number },
}

mod methods;
