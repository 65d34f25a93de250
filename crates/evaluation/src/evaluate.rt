// Pieces of an expression worked out one after another, with a lent stack of values.
ghost use Rattle.std.specs.Prelude.{◌≡◌, ◌<◌, map, length};
ghost use Rattle.grammar.specs.Expressions.{Expr};
ghost use Rattle.grammar.specs.Pieces.{shown, postfix};
ghost use Rattle.grammar.specs.Grammar.{depth};
ghost use Rattle.evaluation.specs.Working.{value_of, setting, worked_out};
ghost use Rattle.evaluation.specs.Machine.{Left, step as stepped, machine};
ghost use Rattle.evaluation.specs.Workbenches.{place, Same};

use crate::frame::{Frame, VALUE_TERMS};
use crate::stack::Stack;
use crate::workbench::Workbench;
use algebra::closed::Closed;
use answers::fault::ScriptFault;
use coefficients::ring::Ring;
use grammar::piece::Piece;
use orders::order::MonomialOrder;
use words::term::Term;

// One piece: a leaf is one value more, a join one for the last two.
#[tactic(auto, using(crate::proofs::Stepping::leaf_full, crate::proofs::Stepping::leaf_refused, crate::proofs::Stepping::leaf_done, crate::proofs::Stepping::nothing_to_join, crate::proofs::Stepping::one_to_join, crate::proofs::Stepping::join_refused, crate::proofs::Stepping::join_done), unfolding(crate::specs::Machine::step))]
fn step<R: Ring, O: MonomialOrder>(
    bench: &mut Workbench<R, O>,
    piece: Piece,
    stack: &mut Stack,
) -> Result<(), ScriptFault>
    ensures left { Left (stepped (place R.Ring.model O.MonomialOrder.model bench.old) stack.old.room (shown piece.entry) stack.old.values) stack.new.values result }
    ensures room { stack.new.room ≡ stack.old.room }
    ensures same { Same bench.old bench.new }
{
    let value = match piece {
        Piece::Generator(x) => {
            stack.check_room()?;
            bench.generator(x)?
        }
        Piece::Coefficient(text) => {
            stack.check_room()?;
            bench.coefficient(text)?
        }
        Piece::Join(operator) => {
            let second = stack.pop()?;
            let first = stack.pop()?;
            bench.join(operator, &first, &second)?
        }
    };
    stack.push(value)
}

// What the pieces come to: those of an expression are worked out from the left, inner first, each operand joined to those before it. Any
// memory does; one frame more than brackets nest is enough.
#[tactic(auto, using(crate::proofs::Running::rest_same, crate::proofs::Running::run_on, crate::proofs::Running::run_stop, crate::proofs::Running::run_all, crate::proofs::Running::value_worked))]
pub fn evaluate<R: Ring, O: MonomialOrder>(
    algebra: &Closed<R, O>,
    pieces: &[Piece],
    stack: &mut [Frame],
    work: &mut [Term],
    out: &mut [Term; VALUE_TERMS],
) -> Result<Frame, ScriptFault>
    ensures answer { value_of result ≡ machine (setting R.Ring.model O.MonomialOrder.model (length work.old) algebra.now) (length stack.old) (map shown pieces.now) }
    ensures value { (e : Expr) → map shown pieces.now ≡ postfix e → depth e < length stack.old → value_of result ≡ worked_out (setting R.Ring.model O.MonomialOrder.model (length work.old) algebra.now) e }
{
    let mut bench = Workbench { algebra, work, out };
    let mut values = Stack::new(stack);
    for piece in pieces {
        step(&mut bench, *piece, &mut values)?;
    }
    values.only()
}
