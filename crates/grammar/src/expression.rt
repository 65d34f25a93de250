// The reader of expressions, and of their leaves.
ghost use Rattle.std.specs.Prelude.{◌≡◌};
ghost use Rattle.grammar.specs.Reading.{seen, Left};
ghost use Rattle.grammar.specs.ExpressionReader.{read_operator, leaf_of, may_end, may_go_on, Opens, read_leaf, read_expr};
ghost use Rattle.grammar.specs.Pieces.{shown, postfix};

use crate::bytes::{Next, atom, generator_in, next_part};
use crate::fault::ReadFault;
use crate::piece::{Operator, Piece};
use crate::reading::Reading;

// After an opening bracket: the operator and the space behind it.
fn operator(s: &[u8]) -> Result<(Operator, &[u8]), ReadFault>
    ensures { seen result ≡ read_operator s.now }
{
    match s {
        [b'+', b' ', rest @ ..] => Ok((Operator::Sum, rest)),
        [b'*', b' ', rest @ ..] => Ok((Operator::Product, rest)),
        [b'-', b' ', rest @ ..] => Ok((Operator::Difference, rest)),
        _ => Err(ReadFault::Misfit),
    }
}

// The piece that an atom is.
// By a match: the check has no proof of `map_or` with a variant as the function.
fn leaf_of_atom<'a>(a: &'a [u8]) -> Piece<'a>
    ensures { shown result ≡ leaf_of a.now }
{
    match generator_in(a) {
        Some(n) => Piece::Generator(n),
        None => Piece::Coefficient(a),
    }
}

// Whether the operands may end here: a difference has two, a sum or a product one at least.
// A difference has two operands, any other join as many as are written. So one more may come, or the end:
fn can_end(op: Operator, joined: usize) -> bool
    ensures { result ≡ may_end op joined }
{
    op != Operator::Difference || joined == 1
}

// Whether one operand more may come.
fn can_go_on(op: Operator, joined: usize) -> bool
    ensures { result ≡ may_go_on op joined }
{
    op != Operator::Difference || joined == 0
}

// What stands behind an opening bracket.
fn opened(s: &[u8]) -> Option<&[u8]>
    ensures { Opens s.now result }
{
    s.strip_prefix(b"(")
}

impl<'p, 'a> Reading<'p, 'a> {
    // A generator or a coefficient.
    fn leaf(&mut self) -> Result<(), ReadFault>
        ensures { Left postfix (read_leaf self.old.rest.now) self.old self.new result }
    {
        let (a, rest) = atom(self.rest)?;
        self.keep(leaf_of_atom(a), rest);
        Ok(())
    }

    // Reads an expression whose brackets nest at most `depth` deep, and adds its instructions to the pieces.
    pub(crate) fn expression(&mut self, depth: usize) -> Result<(), ReadFault>
        ensures { Left postfix (read_expr depth self.old.rest.now) self.old self.new result }
    {
        let Some(inner) = opened(self.rest) else {
            return self.leaf();
        };
        if depth == 0 {
            return Err(ReadFault::DeepBracket);
        }
        let (op, start) = operator(inner)?;
        self.rest = start;
        self.expression(depth - 1)?;
        let mut joined = 0usize;
        loop {
            let (next, after) = next_part(self.rest)?;
            self.rest = after;
            match next {
                Next::End => {
                    if !can_end(op, joined) {
                        return Err(ReadFault::Misfit);
                    }
                    return Ok(());
                }
                Next::Part => {
                    if !can_go_on(op, joined) {
                        return Err(ReadFault::Misfit);
                    }
                    self.expression(depth - 1)?;
                    self.pieces.push(Piece::Join(op));
                    joined += 1;
                }
            }
        }
    }
}
