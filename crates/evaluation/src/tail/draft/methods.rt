// How a draft of a tail grows.
ghost use Rattle.std.specs.Prelude.{◌≡◌, [], Ok};
ghost use Rattle.grammar.specs.Pieces.{shown};
ghost use Rattle.evaluation.specs.Drafts.{drafted};
ghost use Rattle.evaluation.specs.Tails.{all_terms, taken, Made, Grown};

use crate::tail::draft::Draft;
use answers::failure::Failure;
use answers::fault::ScriptFault;
use coefficients::ring::Ring;
use grammar::fault::FormFault;
use grammar::piece::Piece;
use std::alloc::Global;
use words::term::Term;
use words::word::Word;

impl Draft {
    // A first term with the empty word.
    pub(crate) fn new(heap: Global, code: u64) -> Draft
        ensures { drafted result ≡ record { done = []; code = code; word = [] } }
    {
        Draft {
            done: Vec::new(heap),
            code,
            word: Word::empty(),
        }
    }

    // One piece more.
    #[tactic(auto, using(crate::proofs::Tailing::begun, crate::proofs::Valuing::term_is))]
    pub(crate) fn take<R: Ring>(&mut self, ring: &R, piece: Piece) -> Result<(), Failure>
        ensures { Grown (taken (R.Ring.model ring.now) (drafted self.old) (shown piece.entry)) (drafted self.new) result }
    {
        match piece {
            Piece::Generator(x) => {
                self.word.push(x)?;
                Ok(())
            }
            Piece::Coefficient(text) => {
                let code = ring.read(text)?;
                let row = self.word.row();
                let term = Term {
                    row,
                    code: self.code,
                };
                self.done.push(term)?;
                self.code = code;
                self.word = Word::empty();
                Ok(())
            }
            Piece::Join(_) => Err(Failure::Refused(ScriptFault::Form(FormFault::Unreadable))),
        }
    }

    // The terms, the last with them.
    #[tactic(auto, using(crate::proofs::Tailing::begun, crate::proofs::Valuing::term_is))]
    pub(crate) fn finish(self) -> Result<Vec<Term>, Failure>
        ensures { Made (Ok (all_terms (drafted self))) result }
    {
        let Draft {
            mut done,
            code,
            word,
        } = self;
        let row = word.row();
        done.push(Term { row, code })?;
        Ok(done)
    }
}
