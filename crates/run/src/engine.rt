// A calculation: its entries are loaded, and then there are steps until the work list is empty.
ghost use Rattle.std.specs.Prelude.{◌≡◌, length};
ghost use Rattle.kept.specs.Lists.{items, places};
ghost use Rattle.kept.specs.Terms.{blanks};
ghost use Rattle.run.specs.Calls.{Answered, calculate};
ghost use Rattle.run.specs.Dones.{room, terms};
ghost use Rattle.run.specs.Post.{Calculated, Ran};
ghost use Rattle.run.specs.Step.{run_from};

use crate::done::Done;
use crate::fault::{Cause, Place, RunFault};
use crate::rules::Rules;
use crate::source::Source;
use coefficients::ring::Ring;
use kept::list::KeptList;
use orders::order::MonomialOrder;
use words::term::Term;

mod lent;

pub use lent::run;

// The most steps that a run takes.
const STEP_LIMIT: u64 = 1_000_000;

// Blanks a memory.
pub fn blank_all(memory: &mut [Term])
    ensures { memory.new ≡ blanks (length memory.old) }
{
    memory.fill(Term::blank());
}

impl<R: Ring, O: MonomialOrder> Rules<R, O> {
    // At most `limit` steps; answers how many there were.
    fn run_steps(
        &self,
        list: &mut KeptList<O>,
        done: &mut Done,
        limit: u64,
    ) -> Result<u64, RunFault>
        ensures { Ran (run_from (R.model self.now.ring) (O.model list.old.order.now) self.now.table (places list.old) (room done.old) limit 0 (items list.old) (terms done.old)) list.old done.old list.new done.new result }
    {
        let mut steps = 0;
        while let Some(t) = list.take_first() {
            if steps >= limit {
                return Err(RunFault {
                    cause: Cause::StepLimit,
                    place: Place::at_step(steps),
                });
            }
            steps += 1;
            self.step(t, steps, list, done)?;
        }
        Ok(steps)
    }

    // Loads and runs; a refusal leaves both memories as they come.
    fn load_and_run<S: Source>(
        &self,
        source: &S,
        work: &mut [Term],
        out: &mut [Term],
    ) -> Result<(usize, u64), RunFault>
        ensures { Calculated (calculate (R.model self.now.ring) (O.model self.now.order) self.now.table (record { work = length work.old; result = length out.old }) (S.entries source.now (R.model self.now.ring) self.now.table)) work.old out.old work.new out.new result }
    {
        let mut list = KeptList::new(&self.order, work);
        source.load(self, &mut list)?;
        let mut done = Done::new(out);
        let steps = self.run_steps(&mut list, &mut done, STEP_LIMIT)?;
        Ok((done.count(), steps))
    }

    // How many terms the result has, and how many steps it took. Both memories may hold anything and have any size. After an answer the result
    // memory holds the terms and then blanks, after a refusal blanks; work memory is blank after both.
    pub fn calculate<S: Source>(
        &self,
        source: &S,
        work: &mut [Term],
        out: &mut [Term],
    ) -> Result<(usize, u64), RunFault>
        ensures { Answered (calculate (R.model self.now.ring) (O.model self.now.order) self.now.table (record { work = length work.old; result = length out.old }) (S.entries source.now (R.model self.now.ring) self.now.table)) work.new out.new result }
    {
        blank_all(work);
        blank_all(out);
        let answer = self.load_and_run(source, work, out);
        if answer.is_err() {
            blank_all(work);
            blank_all(out);
        }
        answer
    }
}
