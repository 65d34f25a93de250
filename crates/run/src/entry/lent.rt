// An entry into a list that stands in a lent memory, from `start` to its end.
ghost use Rattle.std.specs.Prelude.{◌≡◌, ◌≤◌, length, drop};
ghost use Rattle.kept.specs.Falling.{Falls};
ghost use Rattle.run.specs.Entries.{added as addition, at_place};
ghost use Rattle.run.specs.Post.{LeftFrom};

use crate::fault::{Cause, Place, RunFault};
use coefficients::fault::RingFault;
use coefficients::ring::Ring;
use kept::insert::insert;
use orders::letter::Row;
use orders::order::MonomialOrder;
use words::term::Term;

// Inserts a row and a code, and answers where the list starts then.
fn added<R: Ring, O: MonomialOrder>(
    ring: &R,
    order: &O,
    work: &mut [Term],
    start: usize,
    row: Option<Row>,
    code: Result<u64, RingFault>,
) -> Result<usize, Cause>
    requires { (start ≤ length work.old) × (Falls (O.model order.now) (drop start work.old)) }
    ensures { LeftFrom (O.model order.now) (addition (R.model ring.now) (O.model order.now) (length work.old) row code (drop start work.old)) start work.old work.new result }
{
    let Some(row) = row else {
        return Err(Cause::WordTooLong);
    };
    let code = code?;
    let at = insert(ring, order, work, start, Term { row, code })?;
    Ok(at)
}

// The same, with the place of a fault.
pub fn add_entry<R: Ring, O: MonomialOrder>(
    ring: &R,
    order: &O,
    work: &mut [Term],
    start: usize,
    row: Option<Row>,
    code: Result<u64, RingFault>,
    place: Place,
) -> Result<usize, RunFault>
    requires { (start ≤ length work.old) × (Falls (O.model order.now) (drop start work.old)) }
    ensures { LeftFrom (O.model order.now) (at_place place (addition (R.model ring.now) (O.model order.now) (length work.old) row code (drop start work.old))) start work.old work.new result }
{
    added(ring, order, work, start, row, code).map_err(|cause| RunFault { cause, place })
}
