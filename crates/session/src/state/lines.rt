// The answer of a line in a session.
ghost use Rattle.std.specs.Prelude.{◌≡◌, [], ◌∷◌, ◌++◌, OnOk};
ghost use Rattle.answers.specs.Answers.{answer_bytes};
ghost use Rattle.session.specs.State.{State, state_of};
ghost use Rattle.session.specs.Turns.{Turn};
ghost use Rattle.session.specs.Results.{Turned};
ghost use Rattle.session.specs.Transcript.{line_turn};

use crate::answer::Answer;
use crate::memory::Memory;
use crate::state::Session;
use answers::failure::Failure;
use answers::text::{RefusedLine, push_printed};
use grammar::piece::Pieces;
use grammar::reader::read_line;
use std::alloc::{AllocError, Global};

// Appends the answer of a turn. Where there was no memory, there is none for the answer either.
fn push_turn(
    number: u64,
    turned: Result<Answer, Failure>,
    out: &mut Vec<u8>,
) -> Result<(), AllocError>
    ensures after { OnOk result ((t : Turn) (s : State) → Turned t s turned → t.after ≡ s) }
    ensures bytes { OnOk result ((t : Turn) (s : State) → Turned t s turned → out.new.items ≡ out.old.items ++ answer_bytes number t.answer) }
{
    match turned {
        Ok(answer) => answer.push(out),
        Err(Failure::Refused(fault)) => push_printed(out, &RefusedLine { number, fault }),
        Err(Failure::Memory(e)) => Err(e),
    }
}

impl Session {
    // The turn of what a line holds; a line that is no form is refused.
    fn line_turn<'a>(
        &mut self,
        heap: Global,
        line: &'a [u8],
        pieces: &mut Pieces<'a>,
        memory: &mut Memory,
    ) -> Result<Answer, Failure>
        ensures { Turned (line_turn (state_of self.old.stage) line.now) (state_of self.new.stage) result }
    {
        let form = read_line(line, pieces)?;
        self.turn(heap, form, memory)
    }

    // Answers a line: the bytes of the answer and a byte 10.
    pub fn answer(
        &mut self,
        heap: Global,
        number: u64,
        line: &[u8],
        memory: &mut Memory,
        out: &mut Vec<u8>,
    ) -> Result<(), AllocError>
        ensures bytes { OnOk result (out.new.items ≡ out.old.items ++ (answer_bytes number (line_turn (state_of self.old.stage) line.now).answer ++ (10 ∷ []))) }
        ensures state { OnOk result (state_of self.new.stage ≡ (line_turn (state_of self.old.stage) line.now).after) }
    {
        self.answer_with(heap, number, line, &mut Pieces::new(), memory, out)
    }

    // The same, with room for the pieces of the line that is lent: a script makes it once, since making it costs more than most lines.
    pub(crate) fn answer_with<'a>(
        &mut self,
        heap: Global,
        number: u64,
        line: &'a [u8],
        pieces: &mut Pieces<'a>,
        memory: &mut Memory,
        out: &mut Vec<u8>,
    ) -> Result<(), AllocError>
        ensures bytes { OnOk result (out.new.items ≡ out.old.items ++ (answer_bytes number (line_turn (state_of self.old.stage) line.now).answer ++ (10 ∷ []))) }
        ensures state { OnOk result (state_of self.new.stage ≡ (line_turn (state_of self.old.stage) line.now).after) }
    {
        let turned = self.line_turn(heap, line, pieces, memory);
        push_turn(number, turned, out)?;
        out.push(b'\n')?;
        Ok(())
    }
}
