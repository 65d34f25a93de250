// How an algebra is opened, and relations declared in it.
ghost use Rattle.std.specs.Prelude.{◌≡◌, IfOk, IfErr, OnOk, OnErr, Err};
ghost use Rattle.relations.specs.Declare.{passed, check_pair, declare_answer};
ghost use Rattle.relations.specs.Presentations.{Opened, Declares, opened_table, declared_table};

use crate::count::Count;
use crate::fault::{DeclareCause, DeclareFault};
use crate::open::Open;
use crate::pair::Pair;
use crate::presentation::Presentation;
use coefficients::ring::Ring;
use orders::order::MonomialOrder;
use words::term::Term;

impl<R: Ring, O: MonomialOrder> Open<R, O> {
    // Every pair has the factor one and no tail.
    pub fn new(count: Count, ring: R, order: O) -> Open<R, O>
        ensures ring { result.presentation.rules.ring ≡ ring }
        ensures order { result.presentation.rules.order ≡ order }
        ensures count { result.presentation.count ≡ count }
        ensures opened { Opened (R.model ring) result.presentation.rules.table result.declared }
        ensures table { result.presentation.rules.table ≡ opened_table (R.model ring) }
    {
        Open {
            presentation: Presentation::plain(count, ring, order),
            declared: [false; 64],
        }
    }

    // The letters of a pair that may be declared.
    fn free_pair(&self, j: u64, i: u64) -> Result<Pair, DeclareCause>
        ensures pair { IfOk result (λ p. (p.j.number ≡ j) × (p.i.number ≡ i)) }
        ensures passed { OnOk result (check_pair self.now.presentation.count.n self.now.declared j i passed ≡ passed) }
        ensures refused { IfErr result (λ e. check_pair self.now.presentation.count.n self.now.declared j i passed ≡ Err (record { cause = e; term = 0 })) }
    {
        let count = self.presentation.count();
        let j = count.letter(j).ok_or(DeclareCause::Generator)?;
        let i = count.letter(i).ok_or(DeclareCause::Generator)?;
        if i.number() >= j.number() {
            return Err(DeclareCause::NotRising);
        }
        let pair = Pair { j, i };
        if self.declared[pair.place()] {
            return Err(DeclareCause::AlreadyDeclared);
        }
        Ok(pair)
    }

    // x_j x_i = factor · x_i x_j + tail. Refused, all stays as it was.
    pub fn declare(
        &mut self,
        j: u64,
        i: u64,
        factor: u64,
        tail: &[Term],
    ) -> Result<(), DeclareFault>
        ensures answer { result ≡ declare_answer (R.model self.old.presentation.rules.ring) (O.model self.old.presentation.rules.order) self.old.presentation.count.n self.old.declared j i factor tail.now }
        ensures answered { OnOk result (Declares j i factor tail.now self.old.presentation.rules.table self.old.declared self.new.presentation.rules.table self.new.declared) }
        ensures table { OnOk result (self.new.presentation.rules.table ≡ declared_table self.old.presentation.rules.table j i factor tail.now) }
        ensures ring { self.new.presentation.rules.ring ≡ self.old.presentation.rules.ring }
        ensures order { self.new.presentation.rules.order ≡ self.old.presentation.rules.order }
        ensures count { self.new.presentation.count ≡ self.old.presentation.count }
        ensures refused { OnErr result (self.new ≡ self.old) }
    {
        let pair = self.free_pair(j, i)?;
        self.presentation.relate(pair, factor, tail)?;
        self.declared[pair.place()] = true;
        Ok(())
    }

    // What a closed algebra goes on with.
    pub fn into_presentation(self) -> Presentation<R, O>
        ensures { result ≡ self.presentation }
    {
        let Open {
            presentation,
            declared: _,
        } = self;
        presentation
    }

    pub fn ring(&self) -> &R
        ensures { result.now ≡ self.now.presentation.rules.ring }
    {
        &self.presentation.rules().ring
    }

    pub fn order(&self) -> &O
        ensures { result.now ≡ self.now.presentation.rules.order }
    {
        &self.presentation.rules().order
    }

    pub fn presentation(&self) -> &Presentation<R, O>
        ensures { result.now ≡ self.now.presentation }
    {
        &self.presentation
    }
}
