// The checks of three generators.
ghost use Rattle.std.specs.Prelude.{◌≡◌, IfOk, IfErr, OnOk, Err};
ghost use Rattle.algebra.specs.Overlaps.{unplaced, passed, check_triple};

use crate::fault::CallCause;
use crate::triple::Triple;
use relations::count::Count;

impl Triple {
    // Three generators that rise.
    pub(crate) fn rising(count: Count, i: u64, j: u64, k: u64) -> Result<Triple, CallCause>
        ensures triple { IfOk result (λ t. (t.i.number ≡ i) × (t.j.number ≡ j) × (t.k.number ≡ k)) }
        ensures passed { OnOk result (check_triple count.n i j k passed ≡ passed) }
        ensures refused { IfErr result (λ e. check_triple count.n i j k passed ≡ Err (unplaced e)) }
    {
        let i = count.letter(i).ok_or(CallCause::Generator)?;
        let j = count.letter(j).ok_or(CallCause::Generator)?;
        let k = count.letter(k).ok_or(CallCause::Generator)?;
        if i.number() >= j.number() || j.number() >= k.number() {
            return Err(CallCause::NotRising);
        }
        Ok(Triple { i, j, k })
    }
}
