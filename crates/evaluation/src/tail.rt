// The terms of a declaration's tail.
ghost use Rattle.std.specs.Prelude.{◌≡◌, List, [], map};
ghost use Rattle.grammar.specs.Forms.{TermForm, term_pieces};
ghost use Rattle.grammar.specs.Pieces.{shown};
ghost use Rattle.evaluation.specs.Tails.{Made, all_taken, tail_of, made_terms};

use crate::tail::draft::Draft;
use answers::failure::Failure;
use answers::fault::ScriptFault;
use coefficients::ring::Ring;
use grammar::fault::FormFault;
use grammar::piece::Piece;
use std::alloc::Global;
use words::term::Term;

pub(crate) mod draft;

// The terms of which the first has this code, and the pieces follow its coefficient.
#[tactic(auto, using(crate::proofs::Tailing::take_on, crate::proofs::Tailing::take_stop, crate::proofs::Tailing::take_all, crate::proofs::Tailing::made_at))]
fn terms_from<R: Ring>(
    heap: Global,
    ring: &R,
    code: u64,
    pieces: &[Piece],
) -> Result<Vec<Term>, Failure>
    ensures { Made (all_taken (R.Ring.model ring.now) (record { done = []; code = code; word = [] }) (map shown pieces.now)) result }
{
    let mut draft = Draft::new(heap, code);
    for piece in pieces {
        draft.take(ring, *piece)?;
    }
    draft.finish()
}

// The terms that the pieces make.
fn collect_terms<R: Ring>(heap: Global, ring: &R, pieces: &[Piece]) -> Result<Vec<Term>, Failure>
    ensures { Made (tail_of (R.Ring.model ring.now) (map shown pieces.now)) result }
{
    let Some((first, rest)) = pieces.split_first() else {
        return Ok(Vec::new(heap));
    };
    let Piece::Coefficient(text) = *first else {
        return Err(Failure::Refused(ScriptFault::Form(FormFault::Unreadable)));
    };
    let code = ring.read(text)?;
    terms_from(heap, ring, code, rest)
}

// The terms of a tail from its pieces, of each term its coefficient and then its generators: each coefficient read by the ring, each word
// grown letter by letter.
#[tactic(auto, using(crate::proofs::Tailing::tail_made, crate::proofs::Tailing::made_at))]
pub fn tail_terms<R: Ring>(heap: Global, ring: &R, pieces: &[Piece]) -> Result<Vec<Term>, Failure>
    ensures answer { Made (tail_of (R.Ring.model ring.now) (map shown pieces.now)) result }
    ensures terms { (ts : List TermForm) → map shown pieces.now ≡ term_pieces ts → Made (made_terms (R.Ring.model ring.now) ts) result }
{
    collect_terms(heap, ring, pieces)
}
