// The run of a list that was loaded into a lent memory, by a ring, an order and a table that are lent too.
ghost use Rattle.std.specs.Prelude.{◌≡◌, [], length};
ghost use Rattle.kept.specs.Terms.{blanks};
ghost use Rattle.run.specs.Calls.{Answered, step_limit};
ghost use Rattle.run.specs.Entries.{then_do};
ghost use Rattle.run.specs.Post.{Ended, Ready, listed};
ghost use Rattle.run.specs.Step.{run_from};

use crate::done::Done;
use crate::engine::{STEP_LIMIT, blank_all};
use crate::fault::RunFault;
use crate::lent::Lent;
use crate::relation::Table;
use crate::rules::Rules;
use coefficients::ring::Ring;
use kept::list::KeptList;
use orders::order::MonomialOrder;
use words::term::Term;

impl<R: Ring, O: MonomialOrder> Rules<R, O> {
    // Runs the list that was loaded from a place of the work memory on; a refusal leaves both memories as they come.
    fn run_loaded(
        &self,
        loaded: Result<usize, RunFault>,
        work: &mut [Term],
        out: &mut [Term],
    ) -> Result<(usize, u64), RunFault>
        requires { Ready (O.model self.now.order) loaded work.old }
        ensures { Ended (then_do (listed loaded work.old) (λ xs. run_from (R.model self.now.ring) (O.model self.now.order) self.now.table (length work.old) (length out.old) step_limit 0 xs [])) out.old work.new out.new result }
    {
        let from = loaded?;
        let mut list = KeptList::standing(&self.order, work, from);
        let mut done = Done::new(out);
        let steps = self.run_steps(&mut list, &mut done, STEP_LIMIT)?;
        Ok((done.count(), steps))
    }
}

// The run of what was loaded; after a refusal both memories are blank. The table is copied once.
pub fn run<R: Ring, O: MonomialOrder>(
    ring: &R,
    order: &O,
    table: &Table,
    loaded: Result<usize, RunFault>,
    work: &mut [Term],
    out: &mut [Term],
) -> Result<(usize, u64), RunFault>
    requires { (Ready (O.model order.now) loaded work.old) × (out.old ≡ blanks (length out.old)) }
    ensures { Answered (then_do (listed loaded work.old) (λ xs. run_from (R.model ring.now) (O.model order.now) table.now (length work.old) (length out.old) step_limit 0 xs [])) work.new out.new result }
{
    let rules = Rules {
        ring: Lent(ring),
        order: Lent(order),
        table: *table,
    };
    let answer = rules.run_loaded(loaded, work, out);
    if answer.is_err() {
        blank_all(work);
        blank_all(out);
    }
    answer
}
