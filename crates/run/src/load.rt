// Loading: the terms of a list into the kept list, one after another.
ghost use Rattle.std.specs.Prelude.{◌≡◌, ℕ};
ghost use Rattle.kept.specs.Lists.{items, places};
ghost use Rattle.run.specs.Calls.{first_entry, first_entries, second_entry, second_entries, negated_entry, negated_entries, joined_entry, joined_entries, product_entries};
ghost use Rattle.run.specs.Entries.{Entry as WordEntry, row_entry, each_entry, load};
ghost use Rattle.run.specs.Post.{Left};
ghost use Rattle.words.specs.declared.term.Term.{Term as TermOf};

use crate::entry::Entry;
use crate::fault::{Place, RunFault};
use crate::rules::Rules;
use crate::substitute::{clean_row, joined_row};
use coefficients::ring::Ring;
use kept::list::KeptList;
use orders::order::MonomialOrder;
use words::term::Term;

impl<R: Ring, O: MonomialOrder> Rules<R, O> {
    // Inserts what `entry` gives for each term and its place, counted from 1.
    pub fn load_each<F: Fn(u64, &Term) -> Entry>(
        &self,
        terms: &[Term],
        entry: F,
        list: &mut KeptList<O>,
    ) -> Result<(), RunFault>
        requires { F.IsAlwaysCallable entry }
        ensures { (f : ℕ → TermOf → WordEntry) → ((p : _) (t : _) (r : _) → F.post entry p t r → r ≡ row_entry (f p t.now)) → Left (load (R.model self.now.ring) (O.model list.old.order.now) (places list.old) (each_entry f 1 terms.now) (items list.old)) list.old list.new result }
    {
        for (i, t) in terms.iter().enumerate() {
            self.add_entry(entry(i as u64 + 1, t), list)?;
        }
        Ok(())
    }

    // The first list, as it is.
    pub(crate) fn load_first(&self, terms: &[Term], list: &mut KeptList<O>) -> Result<(), RunFault>
        ensures { Left (load (R.model self.now.ring) (O.model list.old.order.now) (places list.old) (first_entries 1 terms.now) (items list.old)) list.old list.new result }
    {
        self.load_each(
            terms,
            |p: u64, t: &Term| -> Entry
                ensures { result ≡ row_entry (first_entry p t.now) }
            {
                Entry {
                    row: Some(clean_row(&t.row)),
                    code: Ok(t.code),
                    place: Place::loading(p, 0),
                }
            },
            list,
        )
    }

    // The second list, as it is.
    pub(crate) fn load_second(&self, terms: &[Term], list: &mut KeptList<O>) -> Result<(), RunFault>
        ensures { Left (load (R.model self.now.ring) (O.model list.old.order.now) (places list.old) (second_entries 1 terms.now) (items list.old)) list.old list.new result }
    {
        self.load_each(
            terms,
            |p: u64, t: &Term| -> Entry
                ensures { result ≡ row_entry (second_entry p t.now) }
            {
                Entry {
                    row: Some(clean_row(&t.row)),
                    code: Ok(t.code),
                    place: Place::loading(0, p),
                }
            },
            list,
        )
    }

    // The second list, with negatives.
    pub(crate) fn load_negated(
        &self,
        terms: &[Term],
        list: &mut KeptList<O>,
    ) -> Result<(), RunFault>
        ensures { Left (load (R.model self.now.ring) (O.model list.old.order.now) (places list.old) (negated_entries (R.model self.now.ring) 1 terms.now) (items list.old)) list.old list.new result }
    {
        self.load_each(
            terms,
            |p: u64, t: &Term| -> Entry
                ensures { result ≡ row_entry (negated_entry (R.model self.entry.now.ring) p t.now) }
            {
                Entry {
                    row: Some(clean_row(&t.row)),
                    code: self.ring.negative(t.code),
                    place: Place::loading(0, p),
                }
            },
            list,
        )
    }

    // The term t, at place p of the first list, times each of the second list.
    fn load_joined(
        &self,
        t: &Term,
        p: u64,
        terms: &[Term],
        list: &mut KeptList<O>,
    ) -> Result<(), RunFault>
        ensures { Left (load (R.model self.now.ring) (O.model list.old.order.now) (places list.old) (joined_entries (R.model self.now.ring) p t.now 1 terms.now) (items list.old)) list.old list.new result }
    {
        self.load_each(
            terms,
            |q: u64, u: &Term| -> Entry
                ensures { result ≡ row_entry (joined_entry (R.model self.entry.now.ring) p t.entry.now q u.now) }
            {
                Entry {
                    row: joined_row(&t.row, &u.row),
                    code: self.ring.product(t.code, u.code),
                    place: Place::loading(p, q),
                }
            },
            list,
        )
    }

    // Each term of the first list times each of the second.
    pub(crate) fn load_products(
        &self,
        first: &[Term],
        second: &[Term],
        list: &mut KeptList<O>,
    ) -> Result<(), RunFault>
        ensures { Left (load (R.model self.now.ring) (O.model list.old.order.now) (places list.old) (product_entries (R.model self.now.ring) 1 first.now second.now) (items list.old)) list.old list.new result }
    {
        for (i, t) in first.iter().enumerate() {
            self.load_joined(t, i as u64 + 1, second, list)?;
        }
        Ok(())
    }
}
