// Calculations in a closed algebra. Both memories may hold anything and have any size. After an answer the result memory holds the terms and
// then blanks, after a refusal blanks; work memory is blank after both.
ghost use Rattle.std.specs.Prelude.{◌≡◌, ◌++◌, Ok, length};
ghost use Rattle.run.specs.Calls.{calculate as run_answer};
ghost use Rattle.run.specs.Entries.{then_do};
ghost use Rattle.algebra.specs.Calls.{Answered, when_sound, first_list, second_list, checks, calculation_answer, normalise as normal_form, sum as sum_form, difference as difference_form, product as product_form};
ghost use Rattle.algebra.specs.Overlaps.{unplaced, passed, by_run};
ghost use Rattle.algebra.specs.Scans.{placed};
ghost use Rattle.algebra.specs.Meaning.{Formed, free_sum};
ghost use Rattle.normal_forms.specs.Terms.{sum_of};
ghost use Rattle.theory.specs.FreeSum.{negate, times};

use crate::closed::Closed;
use crate::fault::{AlgebraFault, CallCause};
use crate::scan::{Side, check_list};
use crate::verdict::Verdict;
use coefficients::ring::Ring;
use orders::order::MonomialOrder;
use run::calls::Calculation;
use run::engine::blank_all;
use run::source::Source;
use words::term::Term;

// The lists of a calculation; the second is empty where there is one.
fn lists<'a>(calculation: Calculation<'a>) -> (&'a [Term], &'a [Term])
    ensures first { result.0.now ≡ first_list calculation.entry }
    ensures second { result.1.now ≡ second_list calculation.entry }
{
    match calculation {
        Calculation::Normalise(list) => (list, &[]),
        Calculation::Sum(first, second)
        | Calculation::Difference(first, second)
        | Calculation::Product(first, second) => (first, second),
    }
}

impl<R: Ring, O: MonomialOrder> Closed<R, O> {
    // A calculation is refused unless the algebra is sound.
    fn check_sound(&self) -> Result<(), CallCause>
        ensures { placed unplaced result ≡ when_sound self.now.verdict passed }
    {
        match self.verdict {
            Verdict::Sound => Ok(()),
            Verdict::Undecided => Err(CallCause::Undecided),
            Verdict::Degenerate(_, _, _) => Err(CallCause::Degenerate),
        }
    }

    // A calculation, where it passes its checks.
    fn checked<'a>(&self, calculation: Calculation<'a>) -> Result<Calculation<'a>, AlgebraFault>
        ensures { result ≡ checks (R.model self.now.presentation.rules.ring) self.now.presentation.count.n self.now.verdict calculation.entry (Ok calculation.entry) }
    {
        self.check_sound()?;
        let (first, second) = lists(calculation);
        check_list(&self.presentation, Side::First, first)?;
        check_list(&self.presentation, Side::Second, second)?;
        Ok(calculation)
    }

    // The run of what passed its checks; where a check refused both memories are blank.
    pub(crate) fn run<S: Source + Drop>(
        &self,
        source: Result<S, AlgebraFault>,
        work: &mut [Term],
        out: &mut [Term],
    ) -> Result<(usize, u64), AlgebraFault>
        ensures { Answered (then_do source (λ s. by_run (run_answer (R.model self.now.presentation.rules.ring) (O.model self.now.presentation.rules.order) self.now.presentation.rules.table (record { work = length work.old; result = length out.old }) (S.entries s (R.model self.now.presentation.rules.ring) self.now.presentation.rules.table)))) work.new out.new result }
    {
        match source {
            Ok(source) => Ok(self.presentation.rules().calculate(&source, work, out)?),
            Err(fault) => {
                blank_all(work);
                blank_all(out);
                Err(fault)
            }
        }
    }

    // How many terms the normal form of what is calculated has, and how many steps it took.
    fn calculate(
        &self,
        calculation: Calculation,
        work: &mut [Term],
        out: &mut [Term],
    ) -> Result<(usize, u64), AlgebraFault>
        ensures answer { Answered (calculation_answer (R.model self.now.presentation.rules.ring) (O.model self.now.presentation.rules.order) (record { work = length work.old; result = length out.old }) self.now.presentation.count.n self.now.presentation.rules.table self.now.verdict calculation.entry) work.new out.new result }
        ensures meaning { Formed (R.model self.now.presentation.rules.ring) self.now.presentation.count.n self.now.presentation.rules.table (free_sum (R.model self.now.presentation.rules.ring) calculation.entry) out.new result }
    {
        self.run(self.checked(calculation), work, out)
    }

    // The normal form of a list of terms: how many terms it has, and how many steps it took.
    #[tactic(auto, unfolding(crate::specs::Calls::normalise, crate::specs::Calls::calculation_answer))]
    pub fn normalise(
        &self,
        list: &[Term],
        work: &mut [Term],
        out: &mut [Term],
    ) -> Result<(usize, u64), AlgebraFault>
        ensures answer { Answered (normal_form (R.model self.now.presentation.rules.ring) (O.model self.now.presentation.rules.order) (record { work = length work.old; result = length out.old }) self.now.presentation.count.n self.now.presentation.rules.table self.now.verdict list.now) work.new out.new result }
        ensures meaning { Formed (R.model self.now.presentation.rules.ring) self.now.presentation.count.n self.now.presentation.rules.table (sum_of (R.model self.now.presentation.rules.ring) list.now) out.new result }
    {
        self.calculate(Calculation::Normalise(list), work, out)
    }

    // The normal form of the sum of two lists.
    #[tactic(auto, unfolding(crate::specs::Calls::sum, crate::specs::Calls::calculation_answer))]
    pub fn sum(
        &self,
        first: &[Term],
        second: &[Term],
        work: &mut [Term],
        out: &mut [Term],
    ) -> Result<(usize, u64), AlgebraFault>
        ensures answer { Answered (sum_form (R.model self.now.presentation.rules.ring) (O.model self.now.presentation.rules.order) (record { work = length work.old; result = length out.old }) self.now.presentation.count.n self.now.presentation.rules.table self.now.verdict first.now second.now) work.new out.new result }
        ensures meaning { Formed (R.model self.now.presentation.rules.ring) self.now.presentation.count.n self.now.presentation.rules.table (sum_of (R.model self.now.presentation.rules.ring) first.now ++ sum_of (R.model self.now.presentation.rules.ring) second.now) out.new result }
    {
        self.calculate(Calculation::Sum(first, second), work, out)
    }

    // The normal form of the first list minus the second.
    #[tactic(auto, unfolding(crate::specs::Calls::difference, crate::specs::Calls::calculation_answer))]
    pub fn difference(
        &self,
        first: &[Term],
        second: &[Term],
        work: &mut [Term],
        out: &mut [Term],
    ) -> Result<(usize, u64), AlgebraFault>
        ensures answer { Answered (difference_form (R.model self.now.presentation.rules.ring) (O.model self.now.presentation.rules.order) (record { work = length work.old; result = length out.old }) self.now.presentation.count.n self.now.presentation.rules.table self.now.verdict first.now second.now) work.new out.new result }
        ensures meaning { Formed (R.model self.now.presentation.rules.ring) self.now.presentation.count.n self.now.presentation.rules.table (sum_of (R.model self.now.presentation.rules.ring) first.now ++ negate (sum_of (R.model self.now.presentation.rules.ring) second.now)) out.new result }
    {
        self.calculate(Calculation::Difference(first, second), work, out)
    }

    // The normal form of the product of two lists.
    #[tactic(auto, unfolding(crate::specs::Calls::product, crate::specs::Calls::calculation_answer))]
    pub fn product(
        &self,
        first: &[Term],
        second: &[Term],
        work: &mut [Term],
        out: &mut [Term],
    ) -> Result<(usize, u64), AlgebraFault>
        ensures answer { Answered (product_form (R.model self.now.presentation.rules.ring) (O.model self.now.presentation.rules.order) (record { work = length work.old; result = length out.old }) self.now.presentation.count.n self.now.presentation.rules.table self.now.verdict first.now second.now) work.new out.new result }
        ensures meaning { Formed (R.model self.now.presentation.rules.ring) self.now.presentation.count.n self.now.presentation.rules.table (times (sum_of (R.model self.now.presentation.rules.ring) first.now) (sum_of (R.model self.now.presentation.rules.ring) second.now)) out.new result }
    {
        self.calculate(Calculation::Product(first, second), work, out)
    }
}
