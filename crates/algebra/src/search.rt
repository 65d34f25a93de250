// The search for a triple whose overlap does not vanish, by smallest i, then j, then k.
ghost use Rattle.std.specs.Prelude.{◌≡◌, length};
ghost use Rattle.algebra.specs.Decide.{decide_over, triples};
ghost use Rattle.algebra.specs.Overlaps.{overlap_run};
ghost use Rattle.algebra.specs.Searching.{vanishing};

use crate::fault::{AlgebraFault, DecideFault};
use crate::triple::Triple;
use crate::verdict::Verdict;
use coefficients::ring::Ring;
use orders::order::MonomialOrder;
use relations::count::Count;
use run::rules::Rules;
use words::term::Term;

// Whether the overlap of a triple vanishes.
fn vanishes<R: Ring, O: MonomialOrder>(
    rules: &Rules<R, O>,
    triple: Triple,
    work: &mut [Term],
    out: &mut [Term],
) -> Result<bool, DecideFault>
    ensures { result ≡ vanishing (record { i = triple.i.number; j = triple.j.number; k = triple.k.number }) (overlap_run (R.model rules.now.ring) (O.model rules.now.order) (record { work = length work.old; result = length out.old }) rules.now.table triple.i.number triple.j.number triple.k.number) }
{
    match rules.calculate(&triple, work, out) {
        Ok((count, _)) => Ok(count == 0),
        Err(fault) => Err(DecideFault {
            overlap: AlgebraFault::Run(fault),
            i: triple.i.number() as u64,
            j: triple.j.number() as u64,
            k: triple.k.number() as u64,
        }),
    }
}

// Sound where every overlap vanishes.
pub(crate) fn search<R: Ring, O: MonomialOrder>(
    rules: &Rules<R, O>,
    count: Count,
    work: &mut [Term],
    out: &mut [Term],
) -> Result<Verdict, DecideFault>
    ensures { result ≡ decide_over (R.model rules.now.ring) (O.model rules.now.order) (record { work = length work.old; result = length out.old }) rules.now.table (triples count.n) }
{
    let n = count.value();
    for i in 1..n + 1 {
        for j in 1..n + 1 {
            for k in 1..n + 1 {
                let Ok(triple) = Triple::rising(count, i, j, k) else {
                    continue;
                };
                if !vanishes(rules, triple, work, out)? {
                    return Ok(Verdict::Degenerate(i, j, k));
                }
            }
        }
    }
    Ok(Verdict::Sound)
}
