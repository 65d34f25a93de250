// The overlap of three generators of a closed algebra, decided or not.
ghost use Rattle.std.specs.Prelude.{length};
ghost use Rattle.algebra.specs.Calls.{Answered};
ghost use Rattle.algebra.specs.Overlaps.{overlap_call};

use crate::closed::Closed;
use crate::fault::AlgebraFault;
use crate::triple::Triple;
use coefficients::ring::Ring;
use orders::order::MonomialOrder;
use words::term::Term;

impl<R: Ring, O: MonomialOrder> Closed<R, O> {
    // The normal form of the overlap of x_k x_j x_i: how many terms it has, and how many steps it took. Both memories may hold anything and
    // have any size; after an answer the result memory holds the terms and then blanks, after a refusal blanks; work memory is blank after both.
    pub fn overlap(
        &self,
        i: u64,
        j: u64,
        k: u64,
        work: &mut [Term],
        out: &mut [Term],
    ) -> Result<(usize, u64), AlgebraFault>
        ensures { Answered (overlap_call (R.model self.now.presentation.rules.ring) (O.model self.now.presentation.rules.order) (record { work = length work.old; result = length out.old }) self.now.presentation.count.n self.now.presentation.rules.table i j k) work.new out.new result }
    {
        let triple = Triple::rising(self.presentation.count(), i, j, k);
        self.run(triple.map_err(AlgebraFault::from), work, out)
    }
}
