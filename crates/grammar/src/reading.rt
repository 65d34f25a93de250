// A line that is being read.
ghost use Rattle.std.specs.Prelude.{◌≡◌, ◌+◌, ◌<◌, ◌≤◌, [], ◌∷◌, ◌++◌, length};

use crate::piece::{Piece, Pieces};

// The bytes that are left, and the pieces so far: as many as the bytes that are left may be added.
#[derive(Drop)]
pub(crate) struct Reading<'p, 'a> {
    pub(crate) rest: &'a [u8],
    pub(crate) pieces: &'p mut Pieces<'a>,
    ghost room: { length pieces.now.items + length rest.now ≤ 1000 },
}

impl<'p, 'a> Reading<'p, 'a> {
    // Adds the piece that was read of some bytes, and goes on behind them.
    pub(crate) fn keep(&mut self, piece: Piece<'a>, rest: &'a [u8])
        requires { length rest.now < length self.old.rest.now }
        ensures rest { self.new.rest.now ≡ rest.now }
        ensures pieces { self.new.pieces.now.items ≡ self.old.pieces.now.items ++ piece.entry ∷ [] }
    {
        self.rest = rest;
        self.pieces.push(piece);
    }
}
