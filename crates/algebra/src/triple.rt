// Three letters whose overlap is run.
ghost use Rattle.std.specs.Prelude.{◌<◌};

use orders::letter::Letter;

// x_i, x_j and x_k, where i < j < k.
#[derive(Clone, Copy)]
pub(crate) struct Triple {
    pub(crate) i: Letter,
    pub(crate) j: Letter,
    pub(crate) k: Letter,
    ghost first: { i.number < j.number },
    ghost second: { j.number < k.number },
}

mod methods;
