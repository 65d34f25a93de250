// How a session works out an expression.
ghost use Rattle.std.specs.Prelude.{◌≡◌, ◌<◌, map};
ghost use Rattle.grammar.specs.Expressions.{Expr};
ghost use Rattle.grammar.specs.Pieces.{shown, postfix};
ghost use Rattle.grammar.specs.Grammar.{depth};
ghost use Rattle.evaluation.specs.Working.{value_of};
ghost use Rattle.session.specs.Turns.{calculation};

use crate::memory::Memory;
use algebra::closed::Closed;
use answers::fault::ScriptFault;
use choices::order::AnyOrder;
use choices::ring::AnyRing;
use evaluation::check::check_coefficients;
use evaluation::evaluate::evaluate;
use evaluation::frame::Frame;
use grammar::piece::Piece;

// Every coefficient is read, then the pieces are worked out.
pub(crate) fn calculate<'a>(
    algebra: &Closed<AnyRing, AnyOrder>,
    pieces: &[Piece<'a>],
    memory: &mut Memory,
) -> Result<Frame, ScriptFault>
    ensures { (e : Expr) → map shown pieces.now ≡ postfix e → depth e < 16 → value_of result ≡ calculation algebra.now.presentation.rules.ring algebra.now.presentation.rules.order algebra.now.presentation.count.n algebra.now.presentation.rules.table algebra.now.verdict e }
{
    check_coefficients(algebra.ring(), pieces)?;
    evaluate(
        algebra,
        pieces,
        &mut memory.stack,
        &mut memory.work,
        &mut memory.out,
    )
}
