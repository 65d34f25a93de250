// The check of a line's coefficients.
ghost use Rattle.std.specs.Prelude.{◌≡◌, List, [], ◌∷◌, map};
ghost use Rattle.grammar.specs.Expressions.{Expr};
ghost use Rattle.grammar.specs.Forms.{TermForm, term_pieces};
ghost use Rattle.grammar.specs.Pieces.{shown, postfix};
ghost use Rattle.evaluation.specs.Coefficients.{coefficients_of, expr_coefficients, all_read};

use answers::fault::ScriptFault;
use coefficients::ring::Ring;
use grammar::piece::Piece;

// Refuses a coefficient that the ring does not read.
fn check_piece<R: Ring>(ring: &R, piece: Piece) -> Result<(), ScriptFault>
    ensures { result ≡ all_read (R.Ring.model ring.now) (coefficients_of (shown piece.entry ∷ [])) }
{
    if let Piece::Coefficient(text) = piece {
        ring.read(text)?;
    }
    Ok(())
}

// Refuses the first coefficient from the left that the ring does not read.
pub fn check_coefficients<R: Ring>(ring: &R, pieces: &[Piece]) -> Result<(), ScriptFault>
    ensures answer { result ≡ all_read (R.Ring.model ring.now) (coefficients_of (map shown pieces.now)) }
    ensures expression { (e : Expr) → map shown pieces.now ≡ postfix e → result ≡ all_read (R.Ring.model ring.now) (expr_coefficients e) }
    ensures terms { (ts : List TermForm) → map shown pieces.now ≡ term_pieces ts → result ≡ all_read (R.Ring.model ring.now) (map (λ (t : TermForm). t.coefficient) ts) }
{
    for piece in pieces {
        check_piece(ring, *piece)?;
    }
    Ok(())
}
