// Values in a closed algebra: leaves of an expression, and two values joined.
ghost use Rattle.std.specs.Prelude.{◌≡◌, [], ◌∷◌};
ghost use Rattle.evaluation.specs.Frames.{frame_terms};
ghost use Rattle.evaluation.specs.Working.{value_of, Short, by_answer, normal_form, generator_value, coefficient_value, joined};
ghost use Rattle.evaluation.specs.Workbenches.{place, Same};

use crate::frame::{Frame, VALUE_TERMS};
use algebra::closed::Closed;
use algebra::fault::AlgebraFault;
use answers::fault::ScriptFault;
use coefficients::ring::Ring;
use grammar::piece::Operator;
use orders::order::MonomialOrder;
use words::term::Term;
use words::word::Word;

// A closed algebra and the memories that its calls take.
#[derive(Drop)]
pub(crate) struct Workbench<'a, R: Ring, O: MonomialOrder> {
    pub(crate) algebra: &'a Closed<R, O>,
    pub(crate) work: &'a mut [Term],
    pub(crate) out: &'a mut [Term; VALUE_TERMS],
}

// What a call answered, with the terms that it left in the result memory.
fn framed(
    answer: Result<(usize, u64), AlgebraFault>,
    out: &[Term; VALUE_TERMS],
) -> Result<Frame, ScriptFault>
    requires { Short answer }
    ensures { value_of result ≡ by_answer answer out.now }
{
    let (count, _) = answer?;
    Ok(Frame::holding(out, count))
}

impl<'a, R: Ring, O: MonomialOrder> Workbench<'a, R, O> {
    // The normal form of one term.
    fn normal(&mut self, term: Term) -> Result<Frame, ScriptFault>
        ensures value { value_of result ≡ normal_form (place R.Ring.model O.MonomialOrder.model self.old) (term ∷ []) }
        ensures same { Same self.old self.new }
    {
        let (algebra, work, out) = (self.algebra, &mut *self.work, &mut *self.out);
        let answer = algebra.normalise(&[term], work, out);
        framed(answer, self.out)
    }

    // The word of one generator, with coefficient one.
    #[tactic(auto, using(crate::proofs::Valuing::generator_worked, crate::proofs::Valuing::coefficient_worked, crate::proofs::Valuing::term_is))]
    pub(crate) fn generator(&mut self, x: u64) -> Result<Frame, ScriptFault>
        ensures value { value_of result ≡ generator_value (place R.Ring.model O.MonomialOrder.model self.old) x }
        ensures same { Same self.old self.new }
    {
        let mut word = Word::empty();
        word.push(x)?;
        let row = word.row();
        let code = self.algebra.ring().one();
        self.normal(Term { row, code })
    }

    // The empty word, with the coefficient that is written so.
    #[tactic(auto, using(crate::proofs::Valuing::generator_worked, crate::proofs::Valuing::coefficient_worked, crate::proofs::Valuing::term_is))]
    pub(crate) fn coefficient(&mut self, text: &[u8]) -> Result<Frame, ScriptFault>
        ensures value { value_of result ≡ coefficient_value (place R.Ring.model O.MonomialOrder.model self.old) text.now }
        ensures same { Same self.old self.new }
    {
        let code = self.algebra.ring().read(text)?;
        let row = Word::empty().row();
        self.normal(Term { row, code })
    }

    // The sum, product or difference of two lists.
    fn call(
        &mut self,
        operator: Operator,
        f: &[Term],
        g: &[Term],
    ) -> Result<(usize, u64), AlgebraFault>
        ensures short { Short result }
        ensures value { by_answer result self.new.out.now ≡ joined (place R.Ring.model O.MonomialOrder.model self.old) operator f.now g.now }
        ensures same { Same self.old self.new }
    {
        let (algebra, work, out) = (self.algebra, &mut *self.work, &mut *self.out);
        match operator {
            Operator::Sum => algebra.sum(f, g, work, out),
            Operator::Product => algebra.product(f, g, work, out),
            Operator::Difference => algebra.difference(f, g, work, out),
        }
    }

    // The sum, product or difference of two values.
    pub(crate) fn join(
        &mut self,
        operator: Operator,
        first: &Frame,
        second: &Frame,
    ) -> Result<Frame, ScriptFault>
        ensures value { value_of result ≡ joined (place R.Ring.model O.MonomialOrder.model self.old) operator (frame_terms first.now) (frame_terms second.now) }
        ensures same { Same self.old self.new }
    {
        let (f, g) = (first.terms(), second.terms());
        let answer = self.call(operator, f, g);
        framed(answer, self.out)
    }
}
