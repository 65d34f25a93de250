// How a kept list is made and changed.
ghost use Rattle.std.specs.Prelude.{◌≡◌, length};
ghost use Rattle.kept.specs.Falling.{ListFrom};
ghost use Rattle.kept.specs.Kept.{insert as insertion};
ghost use Rattle.kept.specs.Lists.{items, SameMemory, Changed, Taken};

use crate::edits::take_first;
use crate::fault::KeptFault;
use crate::insert::insert;
use crate::list::KeptList;
use coefficients::ring::Ring;
use orders::order::MonomialOrder;
use words::term::Term;

impl<'a, O: MonomialOrder> KeptList<'a, O> {
    // The empty list at the end of a memory.
    pub fn new(order: &'a O, memory: &'a mut [Term]) -> KeptList<'a, O>
        ensures order { result.order.now ≡ order.now }
        ensures reference { result.memory.ghost_name ≡ memory.entry.ghost_name }
        ensures memory { result.memory.now ≡ memory.old }
        ensures empty { result.start ≡ length memory.old }
    {
        let start = memory.len();
        KeptList {
            order,
            memory,
            start,
        }
    }

    // The list that stands in a memory already, from a place to its end.
    pub fn standing(order: &'a O, memory: &'a mut [Term], from: usize) -> KeptList<'a, O>
        requires { ListFrom (O.model order.now) from memory.old }
        ensures order { result.order.now ≡ order.now }
        ensures reference { result.memory.ghost_name ≡ memory.entry.ghost_name }
        ensures memory { result.memory.now ≡ memory.old }
        ensures start { result.start ≡ from }
    {
        KeptList {
            order,
            memory,
            start: from,
        }
    }

    // Inserts a term.
    pub fn insert<R: Ring>(&mut self, ring: &R, t: Term) -> Result<(), KeptFault>
        ensures same { SameMemory self.old self.new }
        ensures answer { Changed (insertion (R.model ring.now) (O.model self.old.order.now) self.old.start t (items self.old)) self.old self.new result }
    {
        self.start = insert(ring, self.order, self.memory, self.start, t)?;
        Ok(())
    }

    // Takes the first term out.
    pub fn take_first(&mut self) -> Option<Term>
        ensures same { SameMemory self.old self.new }
        ensures answer { Taken self.old self.new result }
    {
        if self.start == self.memory.len() {
            return None;
        }
        let t = take_first(self.memory, self.start);
        self.start += 1;
        Some(t)
    }
}
