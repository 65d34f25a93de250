// The turn of a form in a session.
ghost use Rattle.std.specs.Prelude.{◌≡◌, ◌<◌, List, map};
ghost use Rattle.grammar.specs.Expressions.{Expr};
ghost use Rattle.grammar.specs.Forms.{TermForm, Form, algebra as algebra_form, rel as rel_form, decide as decide_form, calc as calc_form, order_choice, term_pieces, Holds};
ghost use Rattle.grammar.specs.Pieces.{shown, postfix};
ghost use Rattle.grammar.specs.Grammar.{depth, nesting};
ghost use Rattle.session.specs.State.{start, state_of, closed_state};
ghost use Rattle.session.specs.Turns.{turn as the_turn};
ghost use Rattle.session.specs.Results.{Turned};
ghost use Rattle.session.specs.declared.state.Tag.TheVariants.{Start, Declaring, Calculating};

use crate::answer::Answer;
use crate::calculating::calculate;
use crate::declaring::declare;
use crate::memory::Memory;
use crate::opening::open_algebra;
use crate::state::{Session, Stage, Tag};
use algebra::close::close;
use answers::failure::Failure;
use answers::fault::ScriptFault;
use answers::text::Report;
use grammar::forms::RingForm;
use grammar::line::{Line, OrderForm};
use grammar::piece::Piece;
use std::alloc::Global;
use std::mem;

const OUT_OF_TURN: Failure = Failure::Refused(ScriptFault::OutOfTurn);

impl Session {
    pub fn new() -> Session
        ensures { state_of result.stage ≡ start }
    {
        Session {
            tag: Tag::Start,
            stage: Stage::Empty,
        }
    }

    fn open(&mut self, n: u64, ring: RingForm, order: OrderForm) -> Result<Answer, Failure>
        requires { self.old.tag ≡ Start }
        ensures { Turned (the_turn (state_of self.old.stage) (algebra_form n ring (order_choice order))) (state_of self.new.stage) result }
    {
        let algebra = open_algebra(n, ring, order)?;
        self.stage = Stage::Open(algebra);
        self.tag = Tag::Declaring;
        Ok(Answer::Reported(Report::Opened))
    }

    fn relate<'a>(
        &mut self,
        heap: Global,
        j: u64,
        i: u64,
        factor: &[u8],
        pieces: &[Piece<'a>],
    ) -> Result<Answer, Failure>
        requires { self.old.tag ≡ Declaring }
        ensures { (ts : List TermForm) → map shown pieces.now ≡ term_pieces ts → Turned (the_turn (state_of self.old.stage) (rel_form j i factor.now ts)) (state_of self.new.stage) result }
    {
        let Stage::Open(algebra) = &mut self.stage else {
            return Err(OUT_OF_TURN);
        };
        declare(heap, algebra, j, i, factor, pieces)?;
        Ok(Answer::Reported(Report::Declared))
    }

    fn close_algebra(&mut self)
        requires { self.old.tag ≡ Declaring }
        ensures state { state_of self.new.stage ≡ closed_state (state_of self.old.stage) }
        ensures tag { self.new.tag ≡ Calculating }
    {
        if let Stage::Open(open) = mem::replace(&mut self.stage, Stage::Empty) {
            self.stage = Stage::Closed(close(open));
            self.tag = Tag::Calculating;
        }
    }

    fn decide(&mut self, memory: &mut Memory) -> Result<Answer, Failure>
        requires { self.old.tag ≡ Calculating }
        ensures { Turned (the_turn (state_of self.old.stage) decide_form) (state_of self.new.stage) result }
    {
        let Stage::Closed(algebra) = &mut self.stage else {
            return Err(OUT_OF_TURN);
        };
        let verdict = algebra.decide(&mut memory.work, &mut memory.out)?;
        Ok(Answer::Reported(Report::Decided(verdict)))
    }

    fn work_out<'a>(&self, pieces: &[Piece<'a>], memory: &mut Memory) -> Result<Answer, Failure>
        requires { self.now.tag ≡ Calculating }
        ensures { (e : Expr) → map shown pieces.now ≡ postfix e → depth e < 16 → Turned (the_turn (state_of self.now.stage) (calc_form e)) (state_of self.now.stage) result }
    {
        let Stage::Closed(algebra) = &self.stage else {
            return Err(OUT_OF_TURN);
        };
        let frame = calculate(algebra, pieces, memory)?;
        Ok(Answer::Listed(*algebra.ring(), frame))
    }

    // The state and the form together settle the answer. A refusal leaves the state as it was, but the closing before a refused decision stands.
    pub(crate) fn turn<'p, 'a>(
        &mut self,
        heap: Global,
        line: Line<'p, 'a>,
        memory: &mut Memory,
    ) -> Result<Answer, Failure>
        ensures { (f : Form) → Holds line.entry f → nesting f < 16 → Turned (the_turn (state_of self.old.stage) f) (state_of self.new.stage) result }
    {
        match (self.tag, line) {
            (Tag::Start, Line::Algebra(n, ring, order)) => self.open(n, ring, order),
            (Tag::Declaring, Line::Rel(j, i, factor, tail)) => {
                self.relate(heap, j, i, factor, tail)
            }
            (Tag::Declaring, Line::Decide) => {
                self.close_algebra();
                self.decide(memory)
            }
            (Tag::Calculating, Line::Decide) => self.decide(memory),
            (Tag::Calculating, Line::Calc(pieces)) => self.work_out(pieces, memory),
            _ => Err(OUT_OF_TURN),
        }
    }
}
