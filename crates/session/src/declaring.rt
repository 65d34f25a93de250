// How a session declares a relation.
ghost use Rattle.std.specs.Prelude.{◌≡◌, List, map};
ghost use Rattle.grammar.specs.Forms.{TermForm, term_pieces};
ghost use Rattle.grammar.specs.Pieces.{shown};
ghost use Rattle.evaluation.specs.Coefficients.{all_read, by_ring, coefficients_of};
ghost use Rattle.session.specs.State.{open_state};
ghost use Rattle.session.specs.Turns.{declaration};
ghost use Rattle.session.specs.Results.{Comes, first_read};

use answers::failure::Failure;
use answers::fault::ScriptFault;
use choices::order::AnyOrder;
use choices::ring::AnyRing;
use coefficients::ring::Ring;
use evaluation::check::check_coefficients;
use evaluation::tail::tail_terms;
use grammar::piece::Piece;
use relations::open::Open;
use std::alloc::Global;

// The code of the factor, where every coefficient of the line is read.
fn read_factor<'a, R: Ring>(
    ring: &R,
    factor: &[u8],
    pieces: &[Piece<'a>],
) -> Result<u64, ScriptFault>
    ensures answer { result ≡ first_read (R.model ring.now) factor.now (coefficients_of (map shown pieces.now)) }
    ensures terms { (ts : List TermForm) → map shown pieces.now ≡ term_pieces ts → result ≡ first_read (R.model ring.now) factor.now (map (λ (t : TermForm). t.coefficient) ts) }
{
    let code = ring.read(factor)?;
    check_coefficients(ring, pieces)?;
    Ok(code)
}

// x_j x_i = factor x_i x_j and the terms of the pieces. Every coefficient is read, then every word grown, then the relation declared.
#[tactic(auto, using(crate::proofs::Links::not_read, crate::proofs::Links::not_declared, crate::proofs::Links::is_declared, crate::proofs::Links::tail_fails, crate::proofs::Links::next_state))]
pub(crate) fn declare<'a>(
    heap: Global,
    algebra: &mut Open<AnyRing, AnyOrder>,
    j: u64,
    i: u64,
    factor: &[u8],
    pieces: &[Piece<'a>],
) -> Result<(), Failure>
    ensures { (ts : List TermForm) → map shown pieces.now ≡ term_pieces ts → Comes (declaration algebra.old.presentation.rules.ring algebra.old.presentation.rules.order algebra.old.presentation.count.n algebra.old.presentation.rules.table algebra.old.declared j i factor.now ts) (open_state algebra.old) (open_state algebra.new) result }
{
    let code = read_factor(algebra.ring(), factor, pieces)?;
    let tail = tail_terms(heap, algebra.ring(), pieces)?;
    algebra.declare(j, i, code, tail.as_slice())?;
    Ok(())
}
