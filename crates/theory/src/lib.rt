// The diamond lemma for algebras given by commutation relations, over any commutative ring. Definitions are in specs/, proofs in proofs/.
// Each function here has a theorem for its contract, so that the crate is proved only if the theorem is.
#![tactic(auto)]

ghost use Rattle.theory.specs.Ring.{CommutativeRing};
ghost use Rattle.theory.specs.Theorems.{EndsByKeys, SumsHaveNormalForms, DiamondLemma, BasisIffResolves, OverlapIsNondegeneracy};
ghost use Rattle.theory.specs.Theorems.{RewritingIsCongruent, RewritingEndsAtNormalForm, RewritingExists, NoEndlessRewriting};
ghost use Rattle.theory.specs.Theorems.{OperationsRespectCongruence};
ghost use Rattle.theory.specs.Examples.{WeylResolves, Sl2Resolves, HalvedSl2};

// The ring that coefficients are in.
pub trait Coefficients {
    ghost ring: { CommutativeRing };
}

// Normal forms.

pub fn rewriting_words_ends_by_keys<C: Coefficients>()
    ensures { EndsByKeys C.ring }
{}

pub fn sums_have_normal_forms<C: Coefficients>()
    ensures { SumsHaveNormalForms C.ring }
{}

// The diamond lemma.

pub fn diamond_lemma<C: Coefficients>()
    ensures { DiamondLemma C.ring }
{}

pub fn basis_iff_overlaps_vanish<C: Coefficients>()
    ensures { BasisIffResolves C.ring }
{}

pub fn overlap_is_nondegeneracy_condition<C: Coefficients>()
    ensures { OverlapIsNondegeneracy C.ring }
{}

// Rewriting.

pub fn rewriting_is_congruent<C: Coefficients>()
    ensures { RewritingIsCongruent C.ring }
{}

pub fn rewriting_ends_at_normal_form<C: Coefficients>()
    ensures { RewritingEndsAtNormalForm C.ring }
{}

pub fn rewriting_by_whole_steps_exists<C: Coefficients>()
    ensures { RewritingExists C.ring }
{}

pub fn no_rewriting_goes_on_for_ever<C: Coefficients>()
    ensures { NoEndlessRewriting C.ring }
{}

// The quotient.

pub fn operations_respect_congruence<C: Coefficients>()
    ensures { OperationsRespectCongruence C.ring }
{}

// Examples.

pub fn weyl_algebra_resolves<C: Coefficients>()
    ensures { WeylResolves C.ring }
{}

pub fn sl2_resolves<C: Coefficients>()
    ensures { Sl2Resolves C.ring }
{}

pub fn halved_sl2_does_not_resolve<C: Coefficients>()
    ensures { HalvedSl2 C.ring }
{}
