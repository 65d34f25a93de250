// One step: the greatest term of the work list goes to the result, or its leftmost inversion is replaced by its relation.
ghost use Rattle.std.specs.Prelude.{◌≡◌};
ghost use Rattle.orders.specs.Letters.{letters};
ghost use Rattle.kept.specs.Lists.{items, places};
ghost use Rattle.run.specs.Dones.{room, terms};
ghost use Rattle.run.specs.Entries.{row_entry, load};
ghost use Rattle.run.specs.Post.{Left, Stepped};
ghost use Rattle.run.specs.Step.{tail_entry, tail_entries, entries_at, step_of};

use crate::done::Done;
use crate::entry::Entry;
use crate::fault::{Place, RunFault};
use crate::inversion::Inversion;
use crate::relation::Relation;
use crate::rules::Rules;
use coefficients::ring::Ring;
use kept::list::KeptList;
use orders::order::MonomialOrder;
use words::term::Term;

impl<R: Ring, O: MonomialOrder> Rules<R, O> {
    // Inserts what the terms of a tail give for the letters of an inversion; the exchange was at `place`.
    fn add_tail(
        &self,
        tail: &[Term],
        inversion: Inversion,
        place: Place,
        list: &mut KeptList<O>,
    ) -> Result<(), RunFault>
        ensures { Left (load (R.model self.now.ring) (O.model list.old.order.now) (places list.old) (tail_entries (R.model self.now.ring) place.step place.a place.b (letters inversion.entry.t.now.row) inversion.entry.k inversion.entry.t.now.code 1 tail.now) (items list.old)) list.old list.new result }
    {
        self.load_each(
            tail,
            |e: u64, u: &Term| -> Entry
                ensures { result ≡ row_entry (tail_entry (R.model self.entry.now.ring) place.step place.a place.b (letters inversion.entry.t.now.row) inversion.entry.k inversion.entry.t.now.code e u.now) }
            {
                Entry {
                    row: inversion.substituted_row(&u.row),
                    code: self.ring.product(inversion.code(), u.code),
                    place: Place { e, ..place },
                }
            },
            list,
        )
    }

    // Inserts what the letters of an inversion give by their relation in step n: the exchange, then the tail.
    fn rewrite(&self, inversion: Inversion, n: u64, list: &mut KeptList<O>) -> Result<(), RunFault>
        ensures { Left (load (R.model self.now.ring) (O.model list.old.order.now) (places list.old) (entries_at (R.model self.now.ring) self.now.table n (letters inversion.entry.t.now.row) inversion.entry.k inversion.entry.t.now.code) (items list.old)) list.old list.new result }
    {
        let (j, i) = inversion.letter_pair();
        let relation = Relation::of_letters(&self.table, j, i);
        let place = Place::stepping(n, j.number() as u64, i.number() as u64, 0);
        let exchange = Entry {
            row: Some(inversion.exchanged_row(j, i)),
            code: self.ring.product(inversion.code(), relation.factor()),
            place,
        };
        self.add_entry(exchange, list)?;
        self.add_tail(relation.tail(), inversion, place, list)
    }

    // Step n: t was the greatest term of the work list.
    pub(crate) fn step(
        &self,
        t: Term,
        n: u64,
        list: &mut KeptList<O>,
        done: &mut Done,
    ) -> Result<(), RunFault>
        ensures { Stepped (step_of (R.model self.now.ring) (O.model list.old.order.now) self.now.table (places list.old) (room done.old) n t (items list.old) (terms done.old)) list.old done.old list.new done.new result }
    {
        match Inversion::leftmost(&t) {
            None => done.push(t).map_err(|cause| RunFault {
                cause,
                place: Place::at_step(n),
            }),
            Some(inversion) => self.rewrite(inversion, n, list),
        }
    }
}
