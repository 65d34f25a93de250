// Relations as the run needs them: for each pair of letters a factor and a tail.
ghost use Rattle.std.specs.Prelude.{◌≤◌};

use words::term::Term;

// The most terms that a tail has.
pub const TAIL_TERMS: usize = 8;

// x_j x_i = factor · x_i x_j + the first `count` terms of `tail`. Tables are arrays that are copied, with no memory beside them, so each tail
// stands in its relation.
#[derive(Clone, Copy)]
pub struct Relation {
    factor: u64,
    count: usize,
    tail: [Term; TAIL_TERMS],
    ghost few: { count ≤ 8 },
}

// The relation of x_j x_i is at place 8 (j − 1) + (i − 1).
pub type Table = [Relation; 64];

mod methods;
