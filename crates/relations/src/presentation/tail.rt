// The checks of a tail, term by term.
ghost use Rattle.std.specs.Prelude.{◌≡◌, ℕ, [], ◌∷◌, None, OnOk, length};
ghost use Rattle.std.specs.Option.{option_map};
ghost use Rattle.orders.specs.Letters.{letters, row_places};
ghost use Rattle.relations.specs.Declare.{passed, at_term, below_last, image_before, check_term, check_tail, AllFull};

use crate::fault::{DeclareCause, DeclareFault};
use crate::pair::Pair;
use crate::presentation::Presentation;
use crate::row::is_word_over;
use coefficients::fault::RingFault;
use coefficients::ring::Ring;
use orders::image::Image;
use orders::letter::Row;
use orders::order::MonomialOrder;
use run::rules::Rules;
use words::row::{compare_rows, row_is_standard, row_length};
use words::term::Term;

// Whether a term's word is below that of the term before, if there is one.
fn is_below<O: MonomialOrder>(order: &O, last: Option<&Term>, t: &Term) -> bool
    ensures { result ≡ below_last (O.model order.now) (option_map (λ x. x.now) last.entry) t.now }
{
    last.is_none_or(|s| compare_rows(order, &t.row, &s.row).is_lt())
}

// Whether the image of a row's word is before that of x_i x_j.
fn is_before<O: MonomialOrder>(order: &O, row: &Row, pair: Pair) -> bool
    ensures { result ≡ image_before (O.model order.now) (letters row.now) (pair.i.number ∷ pair.j.number ∷ []) }
{
    order
        .compare(&Image::of_row(row), &Image::of_row(&pair.row()))
        .is_lt()
}

impl<R: Ring, O: MonomialOrder> Presentation<R, O> {
    // The checks of one term, behind the term before.
    fn check_term(&self, pair: Pair, last: Option<&Term>, t: &Term) -> Result<(), DeclareCause>
        ensures full { length t.now.row ≡ row_places }
        ensures answer { (p : ℕ) → at_term p result ≡ check_term (R.model self.now.rules.ring) (O.model self.now.rules.order) self.now.count.n pair.j.number pair.i.number (option_map (λ x. x.now) last.entry) p t.now passed }
    {
        let Rules { ring, order, .. } = &self.rules;
        if !is_word_over(self.count.value(), &t.row) {
            return Err(DeclareCause::Generator);
        }
        if row_length(&t.row) > 8 {
            return Err(DeclareCause::TailSize);
        }
        if !ring.in_use(t.code) {
            return Err(DeclareCause::Coefficient(RingFault::NotInUse));
        }
        if t.code == 0 || !row_is_standard(&t.row) || !is_below(order, last, t) {
            return Err(DeclareCause::TailNotKept);
        }
        if !is_before(order, &t.row, pair) {
            return Err(DeclareCause::TailNotBefore);
        }
        Ok(())
    }

    // The checks of each term, in their order; a fault is at its place from 1.
    pub(crate) fn check_tail(&self, pair: Pair, tail: &[Term]) -> Result<(), DeclareFault>
        ensures full { OnOk result (AllFull tail.now) }
        ensures answer { result ≡ check_tail (R.model self.now.rules.ring) (O.model self.now.rules.order) self.now.count.n pair.j.number pair.i.number None 1 tail.now passed }
    {
        let mut last = None;
        for (e, t) in tail.iter().enumerate() {
            self.check_term(pair, last, t)
                .map_err(|cause| cause.at(e as u64 + 1))?;
            last = Some(t);
        }
        Ok(())
    }
}
