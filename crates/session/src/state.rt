// The state of a session.
ghost use Rattle.std.specs.Prelude.{◌≡◌, true};
ghost use Rattle.session.specs.Fits.{fits};

use algebra::closed::Closed;
use choices::order::AnyOrder;
use choices::ring::AnyRing;
use relations::open::Open;

// Which forms are in turn: at first only algebra, then rel and decide, after closing decide and calc. A plain value, so that one match on it and
// the form settles the turn, whatever is done to the algebra beside it.
#[derive(Clone, Copy, PartialEq, Eq)]
pub enum Tag {
    Start,
    Declaring,
    Calculating,
}

// The algebra, once there is one.
#[derive(Drop)]
pub enum Stage {
    Empty,
    Open(Open<AnyRing, AnyOrder>),
    Closed(Closed<AnyRing, AnyOrder>),
}

#[derive(Drop)]
pub struct Session {
    tag: Tag,
    stage: Stage,
    ghost agrees: { fits tag stage ≡ true },
}

mod lines;
mod turns;
