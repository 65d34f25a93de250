// One entry into the kept list: its length, then its code, then the insertion.
ghost use Rattle.kept.specs.Lists.{items, places};
ghost use Rattle.run.specs.Entries.{added as addition, entered};
ghost use Rattle.run.specs.Post.{Left};

use crate::fault::{Cause, Place, RunFault};
use crate::rules::Rules;
use coefficients::fault::RingFault;
use coefficients::ring::Ring;
use kept::list::KeptList;
use orders::letter::Row;
use orders::order::MonomialOrder;
use words::term::Term;

mod lent;

pub use lent::add_entry;

// The row of a word, unless the word is too long, the answer that gives the code, and the place of a fault.
#[derive(Clone, Copy)]
pub struct Entry {
    pub row: Option<Row>,
    pub code: Result<u64, RingFault>,
    pub place: Place,
}

impl<R: Ring, O: MonomialOrder> Rules<R, O> {
    // Inserts a row and a code.
    fn added(
        &self,
        row: Option<Row>,
        code: Result<u64, RingFault>,
        list: &mut KeptList<O>,
    ) -> Result<(), Cause>
        ensures { Left (addition (R.model self.now.ring) (O.model list.old.order.now) (places list.old) row code (items list.old)) list.old list.new result }
    {
        // measured: with `row.ok_or(..)?` this function, which is called most, is longer
        let Some(row) = row else {
            return Err(Cause::WordTooLong);
        };
        let code = code?;
        Ok(list.insert(&self.ring, Term { row, code })?)
    }

    // Inserts an entry.
    pub fn add_entry(&self, entry: Entry, list: &mut KeptList<O>) -> Result<(), RunFault>
        ensures { Left (entered (R.model self.now.ring) (O.model list.old.order.now) (places list.old) entry (items list.old)) list.old list.new result }
    {
        let Entry { row, code, place } = entry;
        self.added(row, code, list)
            .map_err(|cause| RunFault { cause, place })
    }
}
