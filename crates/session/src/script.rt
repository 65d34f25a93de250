// Whole scripts: a line of answer for each line.
ghost use Rattle.std.specs.Prelude.{◌≡◌, ◌≤◌, [], ◌∷◌, ◌++◌, length, IfOk};
ghost use Rattle.std.specs.Iterator.{YieldsFirstRef, item_count};
ghost use Rattle.session.specs.State.{start};
ghost use Rattle.session.specs.Transcript.{line_length, lines, answers, transcript};

use crate::memory::Memory;
use crate::state::Session;
use answers::fault::ScriptFault;
use answers::text::{RefusedLine, push_printed};
use grammar::fault::FormFault;
use grammar::piece::Pieces;
use std::alloc::{AllocError, Global};

// The most bytes that an input has.
pub const INPUT_BYTES: usize = 65536;

// How many bytes come before the first line end.
fn line_end(s: &[u8]) -> usize
    ensures value { result ≡ line_length s.now }
    ensures bound { result ≤ length s.now }
{
    s.iter().position(|b| *b == b'\n').unwrap_or(s.len())
}

// The lines of what is left of an input.
#[derive(Drop)]
struct Lines<'a>(&'a [u8]);

impl<'a> Iterator for Lines<'a> {
    type Item = &'a [u8];

    ghost next_gives = { YieldsFirstRef (λ s. lines s.0.now) };

    ghost remaining = { item_count (λ s. lines s.0.now) };

    #[tactic(auto, using(crate::proofs::Splitting::next_line, crate::proofs::Splitting::no_lines))]
    fn next(&mut self) -> Option<&'a [u8]> {
        if self.0.is_empty() {
            return None;
        }
        let (line, rest) = self.0.split_at(line_end(self.0));
        self.0 = &rest[rest.len().min(1)..];
        Some(line)
    }
}

// The answers of all lines of an input that is not too long.
#[tactic(auto, using(crate::proofs::Splitting::one_more, crate::proofs::Splitting::none_left, crate::proofs::Splitting::length_lines))]
fn answer_lines(heap: Global, input: &[u8]) -> Result<Vec<u8>, AllocError>
    requires { length input.now ≤ 65536 }
    ensures { IfOk result (λ t. t.items ≡ answers 1 start (lines input.now)) }
{
    let mut out = Vec::new(heap);
    let mut memory = Memory::blank();
    let mut session = Session::new();
    let mut pieces = Pieces::new();
    for (i, line) in Lines(input).enumerate() {
        session.answer_with(heap, i as u64 + 1, line, &mut pieces, &mut memory, &mut out)?;
    }
    Ok(out)
}

// The whole output for a whole input, or want of memory.
#[tactic(auto, using(crate::proofs::Splitting::too_long, crate::proofs::Splitting::not_too_long))]
pub fn answer_script(heap: Global, input: &[u8]) -> Result<Vec<u8>, AllocError>
    ensures { IfOk result (λ t. t.items ≡ transcript input.now) }
{
    if input.len() > INPUT_BYTES {
        let mut out = Vec::new(heap);
        let fault = ScriptFault::Form(FormFault::TooLong);
        push_printed(&mut out, &RefusedLine { number: 0, fault })?;
        out.push(b'\n')?;
        return Ok(out);
    }
    answer_lines(heap, input)
}
