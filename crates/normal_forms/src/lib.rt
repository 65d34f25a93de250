// What a run computes: the terms of an answered calculation are the normal form of what was loaded, whether or not the relations agree.
// Each function here has a theorem for its contract, over every ring and every order that have a model, so that the crate is proved only if
// the theorem is.
#![tactic(auto)]

ghost use Rattle.normal_forms.specs.Theorems.{InsertionAdds, KeptListsEqual, KeptListEmpty, ValidTailsOver, ValidEnds, StepsKeep, AnsweredRuns};
ghost use Rattle.normal_forms.specs.Theorems.{AnsweredMemories, AnsweredCalls, TermsTellApart, TermsAreCongruent};
ghost use Rattle.normal_forms.specs.Examples.{WeylTable};

use coefficients::ring::Ring;
use orders::order::MonomialOrder;

// Kept lists.

// An answered insertion adds its term to the free sum that the list makes, and the list stays kept.
pub fn insertion_adds_its_term<R: Ring, O: MonomialOrder>()
    ensures { (k : R) (o : O) → InsertionAdds (R.model k) (O.model o) }
{}

// Kept lists that make equal free sums are equal, term by term.
pub fn kept_lists_with_equal_sums_are_equal<R: Ring, O: MonomialOrder>()
    ensures { (k : R) (o : O) → KeptListsEqual (R.model k) (O.model o) }
{}

pub fn kept_lists_with_sum_zero_are_empty<R: Ring, O: MonomialOrder>()
    ensures { (k : R) (o : O) → KeptListEmpty (R.model k) (O.model o) }
{}

// Relations.

// The tails of a valid table are in its letters, and rewriting of words ends.
pub fn rewriting_by_valid_relations_ends<R: Ring, O: MonomialOrder>()
    ensures tails { (k : R) (o : O) → ValidTailsOver (R.model k) (O.model o) }
    ensures ends { (k : R) (o : O) → ValidEnds (R.model k) (O.model o) }
{}

// Runs.

// An answered step keeps the normal form of result and work together.
pub fn answered_steps_keep_the_normal_form<R: Ring, O: MonomialOrder>()
    ensures { (k : R) (o : O) → StepsKeep (R.model k) (O.model o) }
{}

// The terms of an answered run are kept and standard, and make the normal form of the free sum that its entries stand for.
pub fn answered_runs_are_normal_forms<R: Ring, O: MonomialOrder>()
    ensures { (k : R) (o : O) → AnsweredRuns (R.model k) (O.model o) }
{}

// So where a call answers that its result memory holds so many terms, these are the normal form.
pub fn answered_memories_hold_normal_forms<R: Ring, O: MonomialOrder>()
    ensures { (k : R) (o : O) → AnsweredMemories (R.model k) (O.model o) }
{}

// And normalise, sum, difference and product answer the normal forms of their lists, of their sum, their difference and their product.
pub fn answered_calls_are_normal_forms<R: Ring, O: MonomialOrder>()
    ensures { (k : R) (o : O) → AnsweredCalls (R.model k) (O.model o) }
{}

// Consequences.

// The terms of two answered runs are equal exactly where the normal forms are, and there are none exactly where the normal form is zero.
pub fn terms_tell_normal_forms_apart<R: Ring, O: MonomialOrder>()
    ensures { (k : R) (o : O) → TermsTellApart (R.model k) (O.model o) }
{}

// The terms are a combination of standard words that is congruent to what was loaded.
pub fn terms_are_congruent_to_their_sum<R: Ring, O: MonomialOrder>()
    ensures { (k : R) (o : O) → TermsAreCongruent (R.model k) (O.model o) }
{}

// An example.

// The table of the first Weyl algebra is valid over every ring and under every order.
pub fn weyl_table_is_valid<R: Ring, O: MonomialOrder>()
    ensures { (k : R) (o : O) → WeylTable (R.model k) (O.model o) }
{}
