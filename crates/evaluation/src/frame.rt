// Values while an expression is worked out: lists of at most 64 terms.
ghost use Rattle.std.specs.Prelude.{◌≤◌};

use words::term::Term;

// The most terms that a value has.
pub const VALUE_TERMS: usize = 64;

// The first `count` terms. An array with no memory of its own, so that a frame is `Copy` and an array of frames can be lent.
#[derive(Clone, Copy)]
pub struct Frame {
    terms: [Term; VALUE_TERMS],
    count: usize,
    ghost few: { count ≤ 64 },
}

mod methods;
