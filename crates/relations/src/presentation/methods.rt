// How presentations are made, and relations set in them.
ghost use Rattle.std.specs.Prelude.{◌≡◌, ◌≤◌, [], replicate, OnOk, OnErr};
ghost use Rattle.relations.specs.Declare.{passed, at_term, check_factor, check_relation, AllFull};
ghost use Rattle.relations.specs.Presentations.{Says, Plain, opened_table, declared_table};
ghost use Rattle.run.specs.Relations.{made_relation};

use crate::count::Count;
use crate::fault::{DeclareCause, DeclareFault};
use crate::pair::Pair;
use crate::presentation::Presentation;
use coefficients::fault::RingFault;
use coefficients::ring::Ring;
use orders::order::MonomialOrder;
use run::relation::{Relation, Table};
use run::rules::Rules;
use words::term::Term;

// A relation for each pair of letters, all with this factor and without a tail.
fn plain_table(factor: u64) -> Table
    ensures plain { Plain factor result }
    ensures whole { result ≡ replicate 64 (made_relation factor []) }
{
    let relation = Relation::new(factor, &[]).unwrap();
    [relation; 64]
}

// The checks of a factor.
fn check_factor<R: Ring>(ring: &R, factor: u64) -> Result<(), DeclareCause>
    ensures { at_term 0 result ≡ check_factor (R.model ring.now) factor passed }
{
    if !ring.in_use(factor) {
        return Err(DeclareCause::Coefficient(RingFault::NotInUse));
    }
    if factor == 0 {
        return Err(DeclareCause::FactorZero);
    }
    Ok(())
}

impl<R: Ring, O: MonomialOrder> Presentation<R, O> {
    // Every pair has the factor one and no tail.
    pub(crate) fn plain(count: Count, ring: R, order: O) -> Presentation<R, O>
        ensures ring { result.rules.ring ≡ ring }
        ensures order { result.rules.order ≡ order }
        ensures count { result.count ≡ count }
        ensures plain { Plain (R.model ring).one result.rules.table }
        ensures table { result.rules.table ≡ opened_table (R.model ring) }
    {
        let table = plain_table(ring.one());
        Presentation {
            rules: Rules { ring, order, table },
            count,
        }
    }

    pub fn rules(&self) -> &Rules<R, O>
        ensures { result.now ≡ self.now.rules }
    {
        &self.rules
    }

    // What rewriting goes by, for a caller that needs no more.
    pub fn into_rules(self) -> Rules<R, O>
        ensures { result ≡ self.rules }
    {
        let Presentation { rules, count: _ } = self;
        rules
    }

    pub fn count(&self) -> Count
        ensures { result ≡ self.now.count }
    {
        self.count
    }

    // x_j x_i = factor · x_i x_j + tail, for a pair of generators. Refused, all stays as it was.
    pub(crate) fn relate(
        &mut self,
        pair: Pair,
        factor: u64,
        tail: &[Term],
    ) -> Result<(), DeclareFault>
        requires { pair.j.number ≤ self.old.count.n }
        ensures answer { result ≡ check_relation (R.model self.old.rules.ring) (O.model self.old.rules.order) self.old.count.n pair.j.number pair.i.number factor tail.now }
        ensures says { OnOk result (Says (made_relation factor tail.now) factor tail.now) }
        ensures full { OnOk result (AllFull tail.now) }
        ensures table { OnOk result (self.new.rules.table ≡ declared_table self.old.rules.table pair.j.number pair.i.number factor tail.now) }
        ensures ring { self.new.rules.ring ≡ self.old.rules.ring }
        ensures order { self.new.rules.order ≡ self.old.rules.order }
        ensures count { self.new.count ≡ self.old.count }
        ensures refused { OnErr result (self.new ≡ self.old) }
    {
        check_factor(&self.rules.ring, factor)?;
        let relation = Relation::new(factor, tail).ok_or(DeclareCause::TailSize)?;
        self.check_tail(pair, tail)?;
        self.rules.table[pair.place()] = relation;
        Ok(())
    }
}
