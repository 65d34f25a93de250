// Insertion into the list that goes from `start` to the end of its memory, its words falling. This and what it calls take the memory and the start
// apart from the struct of both, whose facts do not hold between two writes.
ghost use Rattle.std.specs.Prelude.{drop};
ghost use Rattle.kept.specs.Falling.{ListFrom};
ghost use Rattle.kept.specs.Kept.{insert as insertion};
ghost use Rattle.kept.specs.Post.{Inserted};

use crate::edits::{put_in, take_out};
use crate::fault::KeptFault;
use crate::search::find_place;
use coefficients::ring::Ring;
use orders::order::MonomialOrder;
use words::measured::Measured;
use words::term::Term;

// Inserts a term, and answers where the list starts then; the places before `start` are free.
pub fn insert<R: Ring, O: MonomialOrder>(
    ring: &R,
    order: &O,
    work: &mut [Term],
    start: usize,
    t: Term,
) -> Result<usize, KeptFault>
    requires { ListFrom (O.model order.now) start work.old }
    ensures { Inserted (insertion (R.model ring.now) (O.model order.now) start t (drop start work.old)) start work.old work.new result }
{
    if t.code == 0 {
        return Ok(start);
    }
    match find_place(order, work, start, &Measured::new(t.row)) {
        Ok(p) => {
            let code = ring.sum(work[p].code, t.code)?;
            if code == 0 {
                take_out(work, start, p);
                return Ok(start + 1);
            }
            work[p].code = code;
            Ok(start)
        }
        Err(p) => {
            if start == 0 {
                return Err(KeptFault::Full);
            }
            put_in(work, start, p, t);
            Ok(start - 1)
        }
    }
}
