// How terms are added.
ghost use Rattle.std.specs.Prelude.{◌≡◌, ◌≤◌, length};
ghost use Rattle.run.specs.Dones.{Pushed, SameResult};

use crate::done::Done;
use crate::fault::Cause;
use words::term::Term;

impl<'a> Done<'a> {
    // No term at the front of a memory.
    pub(crate) fn new(memory: &'a mut [Term]) -> Done<'a>
        ensures reference { result.memory.ghost_name ≡ memory.entry.ghost_name }
        ensures memory { result.memory.now ≡ memory.old }
        ensures empty { result.count ≡ 0 }
    {
        Done { memory, count: 0 }
    }

    pub(crate) fn count(&self) -> usize
        ensures value { result ≡ self.now.count }
        ensures within { result ≤ length self.now.memory.now }
    {
        self.count
    }

    // Adds a term.
    pub(crate) fn push(&mut self, t: Term) -> Result<(), Cause>
        ensures same { SameResult self.old self.new }
        ensures answer { Pushed t self.old self.new result }
    {
        if self.count >= self.memory.len() {
            return Err(Cause::ResultFull);
        }
        self.memory[self.count] = t;
        self.count += 1;
        Ok(())
    }
}
