// The kept list: it stands at the end of a lent memory, and the places before it are free.
ghost use Rattle.std.specs.Prelude.{◌≤◌, length, drop};
ghost use Rattle.kept.specs.Falling.{Falls, Falls-prop};

use orders::order::MonomialOrder;
use words::term::Term;

#[derive(Drop)]
pub struct KeptList<'a, O: MonomialOrder> {
    order: &'a O,
    memory: &'a mut [Term],
    start: usize,
    ghost within: { start ≤ length memory.now },
    ghost falls: { Falls (O.model order.now) (drop start memory.now) } by { Falls-prop (O.model order.now) (drop start memory.now) },
}

mod methods;
