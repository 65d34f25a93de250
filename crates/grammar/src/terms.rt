// The reader of the terms of a relation's tail.
ghost use Rattle.std.specs.Prelude.{◌≡◌, ℕ, List, [], ◌∷◌, length};
ghost use Rattle.std.specs.List.{flat_map};
ghost use Rattle.grammar.specs.Reading.{Reads, Left, read_parts, read_generator};
ghost use Rattle.grammar.specs.FormReader.{read_term};
ghost use Rattle.grammar.specs.Forms.{TermForm, one_term};
ghost use Rattle.grammar.specs.Pieces.{Shown, a_generator};

use crate::bytes::{Next, coefficient, generator, next_part, take_bytes};
use crate::fault::ReadFault;
use crate::piece::Piece;
use crate::reading::Reading;

// A kind of part of a list, and how one is read.
pub(crate) trait Part {
    ghost Value: { Type 0 };

    ghost reads: { List ℕ → Reads Value };

    ghost shows: { Value → List Shown };

    fn read<'p, 'a>(line: &mut Reading<'p, 'a>) -> Result<(), ReadFault>
        ensures { Left shows (reads line.old.rest.now) line.old line.new result };
}

impl<'p, 'a> Reading<'p, 'a> {
    // The parts up to the closing bracket, each behind a space.
    pub(crate) fn parts<P: Part>(&mut self) -> Result<(), ReadFault>
        ensures { Left (flat_map P.shows) (read_parts (length self.old.rest.now) P.reads [] self.old.rest.now) self.old self.new result }
    {
        loop {
            let (next, after) = next_part(self.rest)?;
            self.rest = after;
            match next {
                Next::End => return Ok(()),
                Next::Part => P::read(self)?,
            }
        }
    }
}

pub(crate) struct Generator;

impl Part for Generator {
    ghost Value = { ℕ };

    ghost reads = { read_generator };

    ghost shows = { λ n. a_generator n ∷ [] };

    fn read<'p, 'a>(line: &mut Reading<'p, 'a>) -> Result<(), ReadFault> {
        let (n, rest) = generator(line.rest)?;
        line.keep(Piece::Generator(n), rest);
        Ok(())
    }
}

// In brackets, a coefficient and its generators.
pub(crate) struct Term;

impl Part for Term {
    ghost Value = { TermForm };

    ghost reads = { read_term };

    ghost shows = { one_term };

    fn read<'p, 'a>(line: &mut Reading<'p, 'a>) -> Result<(), ReadFault> {
        let inner = take_bytes(line.rest, b"(")?;
        let (c, rest) = coefficient(inner)?;
        line.keep(Piece::Coefficient(c), rest);
        line.parts::<Generator>()
    }
}
