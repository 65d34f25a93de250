// The decision whether a closed algebra is sound.
ghost use Rattle.std.specs.Prelude.{◌≡◌, length};
ghost use Rattle.kept.specs.Terms.{blanks};
ghost use Rattle.algebra.specs.Decide.{decide as decision, verdict_after};
ghost use Rattle.algebra.specs.Meaning.{Decided};

use crate::closed::Closed;
use crate::fault::DecideFault;
use crate::search::search;
use crate::verdict::Verdict;
use coefficients::ring::Ring;
use orders::order::MonomialOrder;
use run::engine::blank_all;
use words::term::Term;

impl<R: Ring, O: MonomialOrder> Closed<R, O> {
    // What is known already, or what the overlaps say.
    fn decided(&self, work: &mut [Term], out: &mut [Term]) -> Result<Verdict, DecideFault>
        ensures value { result ≡ decision (R.model self.now.presentation.rules.ring) (O.model self.now.presentation.rules.order) (record { work = length work.old; result = length out.old }) self.now.presentation.count.n self.now.presentation.rules.table self.now.verdict }
        ensures blank_work { work.new ≡ blanks (length work.old) }
        ensures blank_out { out.new ≡ blanks (length out.old) }
    {
        let answer = match self.verdict {
            Verdict::Undecided => {
                let count = self.presentation.count();
                search(self.presentation.rules(), count, work, out)
            }
            known => Ok(known),
        };
        blank_all(work);
        blank_all(out);
        answer
    }

    // Runs the overlaps by smallest i, then j, then k. The first that does not vanish makes the algebra degenerate; if all vanish it is sound. A
    // refusal leaves it undecided, and a decided algebra repeats its answer. Both memories may hold anything and have any size; afterwards they
    // are blank.
    pub fn decide(&mut self, work: &mut [Term], out: &mut [Term]) -> Result<Verdict, DecideFault>
        ensures value { result ≡ decision (R.model self.old.presentation.rules.ring) (O.model self.old.presentation.rules.order) (record { work = length work.old; result = length out.old }) self.old.presentation.count.n self.old.presentation.rules.table self.old.verdict }
        ensures meaning { Decided (R.model self.old.presentation.rules.ring) self.old.presentation.count.n self.old.presentation.rules.table result }
        ensures verdict { self.new.verdict ≡ verdict_after self.old.verdict result }
        ensures presentation { self.new.presentation ≡ self.old.presentation }
        ensures blank_work { work.new ≡ blanks (length work.old) }
        ensures blank_out { out.new ≡ blanks (length out.old) }
    {
        let verdict = self.decided(work, out)?;
        self.verdict = verdict;
        Ok(verdict)
    }
}
