// The reader of a line.
ghost use Rattle.std.specs.Prelude.{◌≡◌, ◌≤◌, [], length};
ghost use Rattle.grammar.specs.FormReader.{read_algebra, read_rel, read_calc, read_any, read_form, Held, Answered};

use crate::bytes::{coefficient, spaced_number, take_bytes};
use crate::fault::{FormFault, ReadFault};
use crate::forms::{order, ring};
use crate::line::Line;
use crate::piece::Pieces;
use crate::reading::Reading;
use crate::terms::Term;

pub const LINE_LENGTH: usize = 1000;

const NESTING: usize = 15;

// What stands behind "(algebra ".
fn algebra<'p, 'a>(s: &'a [u8]) -> Result<(Line<'p, 'a>, &'a [u8]), ReadFault>
    ensures { Held (read_algebra s.now) result }
{
    let (n, a) = spaced_number(s)?;
    let (ring, b) = ring(a)?;
    let c = take_bytes(b, b" ")?;
    let (order, d) = order(c)?;
    let rest = take_bytes(d, b")")?;
    Ok((Line::Algebra(n, ring, order), rest))
}

impl<'p, 'a> Reading<'p, 'a> {
    // What stands behind "(rel ".
    fn relation(mut self) -> Result<(Line<'p, 'a>, &'a [u8]), ReadFault>
        requires { self.pieces.now.items ≡ [] }
        ensures { Held (read_rel self.entry.rest.now) result }
    {
        let (j, a) = spaced_number(self.rest)?;
        let (i, b) = spaced_number(a)?;
        let (factor, c) = coefficient(b)?;
        self.rest = c;
        self.parts::<Term>()?;
        let tail = self.pieces;
        Ok((Line::Rel(j, i, factor, tail.as_slice()), self.rest))
    }

    // What stands behind "(calc ".
    fn calculation(mut self) -> Result<(Line<'p, 'a>, &'a [u8]), ReadFault>
        requires { self.pieces.now.items ≡ [] }
        ensures { Held (read_calc self.entry.rest.now) result }
    {
        self.expression(NESTING)?;
        let rest = take_bytes(self.rest, b")")?;
        let code = self.pieces;
        Ok((Line::Calc(code.as_slice()), rest))
    }
}

fn form<'p, 'a>(
    s: &'a [u8],
    pieces: &'p mut Pieces<'a>,
) -> Result<(Line<'p, 'a>, &'a [u8]), ReadFault>
    requires { length s.now ≤ 1000 }
    ensures { Held (read_any s.now) result }
{
    if let Ok(inner) = take_bytes(s, b"(algebra ") {
        return algebra(inner);
    }
    pieces.clear();
    if let Ok(rest) = take_bytes(s, b"(rel ") {
        return Reading { rest, pieces }.relation();
    }
    if let Ok(rest) = take_bytes(s, b"(calc ") {
        return Reading { rest, pieces }.calculation();
    }
    let rest = take_bytes(s, b"(decide)")?;
    Ok((Line::Decide, rest))
}

// The form that a line holds, with the pieces of its terms or of its expression in the memory that is lent.
pub fn read_line<'p, 'a>(
    line: &'a [u8],
    pieces: &'p mut Pieces<'a>,
) -> Result<Line<'p, 'a>, FormFault>
    ensures { Answered (read_form line.now) result }
{
    if line.len() > LINE_LENGTH {
        return Err(FormFault::TooLong);
    }
    let (read, rest) = form(line, pieces)?;
    if !rest.is_empty() {
        return Err(FormFault::Unreadable);
    }
    Ok(read)
}
