// What the overlap of three generators loads.
ghost use Rattle.std.specs.Prelude.{◌≡◌, ℕ, ◌∷◌};
ghost use Rattle.kept.specs.Lists.{items, places};
ghost use Rattle.run.specs.Entries.{Entry as WordEntry, row_entry, each_entry, load};
ghost use Rattle.run.specs.Post.{Left};
ghost use Rattle.run.specs.Relations.{relation_of, tail_of};
ghost use Rattle.words.specs.declared.term.Term.{Term as TermOf};
ghost use Rattle.algebra.specs.Overlaps.{overlap_place, first_entry, second_entry, first_half, second_half, overlap_entries};

use crate::triple::Triple;
use coefficients::ring::Ring;
use kept::list::KeptList;
use orders::order::MonomialOrder;
use relations::row::row_of;
use run::entry::Entry;
use run::fault::{Place, RunFault};
use run::relation::Relation;
use run::rules::Rules;
use run::source::Source;
use run::substitute::joined_row;
use words::term::Term;

// The half and the tail term that a fault is at.
fn place_of(a: u64, e: u64) -> Place
    ensures { result ≡ overlap_place a e }
{
    Place {
        step: 0,
        a,
        b: 0,
        e,
    }
}

// An entry, then what `entry` gives for each tail term of a relation and its place, counted from 1.
fn load_half<R: Ring, O: MonomialOrder, F: Fn(u64, &Term) -> Entry>(
    rules: &Rules<R, O>,
    relation: &Relation,
    head: Entry,
    entry: F,
    list: &mut KeptList<O>,
) -> Result<(), RunFault>
    requires { F.IsAlwaysCallable entry }
    ensures { (w : WordEntry) (f : ℕ → TermOf → WordEntry) → head ≡ row_entry w → ((p : _) (t : _) (r : _) → F.post entry p t r → r ≡ row_entry (f p t.now)) → Left (load (R.model rules.now.ring) (O.model list.old.order.now) (places list.old) (w ∷ each_entry f 1 (tail_of relation.now)) (items list.old)) list.old list.new result }
{
    rules.add_entry(head, list)?;
    rules.load_each(relation.tail(), entry, list)
}

// By the relation of the pair (k, j): c x_j x_k x_i and the tail times x_i.
fn load_first<R: Ring, O: MonomialOrder>(
    rules: &Rules<R, O>,
    triple: Triple,
    list: &mut KeptList<O>,
) -> Result<(), RunFault>
    ensures { Left (load (R.model rules.now.ring) (O.model list.old.order.now) (places list.old) (first_half (relation_of rules.now.table triple.k.number triple.j.number) triple.i.number triple.j.number triple.k.number) (items list.old)) list.old list.new result }
{
    let Triple { i, j, k } = triple;
    let relation = Relation::of_letters(&rules.table, k, j);
    let head = Entry {
        row: Some(row_of(&[j, k, i])),
        code: Ok(relation.factor()),
        place: place_of(1, 0),
    };
    let entry = |e: u64, t: &Term| -> Entry
        ensures { result ≡ row_entry (first_entry i.number e t.now) }
    {
        Entry {
            row: joined_row(&t.row, &row_of(&[i])),
            code: Ok(t.code),
            place: place_of(1, e),
        }
    };
    load_half(rules, relation, head, entry, list)
}

// By the relation of the pair (j, i): the negatives of c x_k x_i x_j and of x_k times the tail.
fn load_second<R: Ring, O: MonomialOrder>(
    rules: &Rules<R, O>,
    triple: Triple,
    list: &mut KeptList<O>,
) -> Result<(), RunFault>
    ensures { Left (load (R.model rules.now.ring) (O.model list.old.order.now) (places list.old) (second_half (R.model rules.now.ring) (relation_of rules.now.table triple.j.number triple.i.number) triple.i.number triple.j.number triple.k.number) (items list.old)) list.old list.new result }
{
    let Triple { i, j, k } = triple;
    let relation = Relation::of_letters(&rules.table, j, i);
    let head = Entry {
        row: Some(row_of(&[k, i, j])),
        code: rules.ring.negative(relation.factor()),
        place: place_of(2, 0),
    };
    let entry = |e: u64, t: &Term| -> Entry
        ensures { result ≡ row_entry (second_entry (R.model rules.entry.now.ring) k.number e t.now) }
    {
        Entry {
            row: joined_row(&row_of(&[k]), &t.row),
            code: rules.ring.negative(t.code),
            place: place_of(2, e),
        }
    };
    load_half(rules, relation, head, entry, list)
}

impl Source for Triple {
    ghost entries = { λ t m table. overlap_entries m table t.i.number t.j.number t.k.number };

    fn load<R: Ring, O: MonomialOrder>(
        &self,
        rules: &Rules<R, O>,
        list: &mut KeptList<O>,
    ) -> Result<(), RunFault> {
        load_first(rules, *self, list)?;
        load_second(rules, *self, list)
    }
}
