// A stack of values in lent frames.
ghost use Rattle.std.specs.Prelude.{◌≡◌, ◌<◌, ◌≤◌, [], ◌∷◌, length, Ok, IfOk, IfErr, OnOk, OnErr};
ghost use Rattle.grammar.specs.declared.fault.FormFault.TheVariants.{TooDeep, Unreadable};
ghost use Rattle.answers.specs.declared.fault.ScriptFault.TheVariants.{Form};
ghost use Rattle.evaluation.specs.Frames.{frame_terms};
ghost use Rattle.evaluation.specs.Working.{value_of};
ghost use Rattle.evaluation.specs.Machine.{Left, pushed, only};

use crate::frame::Frame;
use answers::fault::ScriptFault;
use grammar::fault::FormFault;
use std::marker::Model;

// The values are in the first `count` frames. A clause sees how many there is room for, and the values, the last first.
#[derive(Drop)]
pub(crate) struct Stack<'a> {
    frames: &'a mut [Frame],
    count: usize,
}

impl<'a> Model for Stack<'a> {
    ghost use Rattle.evaluation.specs.Machine.{Values};

    ghost Value = { Values };

    ghost use Rattle.evaluation.specs.Stacks.{stack_values, IsStack};

    ghost view = { stack_values };

    ghost invariant = { IsStack };
}

impl<'a> Stack<'a> {
    // No values.
    #[tactic(auto, unfolding(crate::specs::Machine::held))]
    pub(crate) fn new(frames: &'a mut [Frame]) -> Stack<'a>
        ensures { result ≡ record { room = length frames.old; values = [] } }
    {
        Stack { frames, count: 0 }
    }

    // Refuses where there is no room for one value more.
    #[tactic(auto, using(crate::proofs::Stacking::length_held, crate::proofs::Stacking::held_none, crate::proofs::Stacking::held_last, crate::proofs::Stacking::held_push, crate::proofs::Stacking::room, crate::proofs::Stacking::some_under))]
    pub(crate) fn check_room(&self) -> Result<(), ScriptFault>
        ensures room { OnOk result (length self.now.values < self.now.room) }
        ensures full { OnErr result (self.now.room ≤ length self.now.values) }
        ensures fault { IfErr result (λ e. e ≡ Form TooDeep) }
    {
        if self.count < self.frames.len() {
            Ok(())
        } else {
            Err(ScriptFault::Form(FormFault::TooDeep))
        }
    }

    // One value more.
    #[tactic(auto, using(crate::proofs::Stacking::length_held, crate::proofs::Stacking::held_none, crate::proofs::Stacking::held_last, crate::proofs::Stacking::held_push, crate::proofs::Stacking::room, crate::proofs::Stacking::some_under))]
    pub(crate) fn push(&mut self, value: Frame) -> Result<(), ScriptFault>
        ensures left { Left (pushed self.old.room self.old.values (Ok (frame_terms value))) self.new.values result }
        ensures room { self.new.room ≡ self.old.room }
    {
        self.check_room()?;
        self.frames[self.count] = value;
        self.count += 1;
        Ok(())
    }

    // The last value, taken away.
    #[tactic(auto, using(crate::proofs::Stacking::length_held, crate::proofs::Stacking::held_none, crate::proofs::Stacking::held_last, crate::proofs::Stacking::held_push, crate::proofs::Stacking::room, crate::proofs::Stacking::some_under))]
    pub(crate) fn pop(&mut self) -> Result<Frame, ScriptFault>
        ensures value { IfOk result (λ f. self.old.values ≡ frame_terms f ∷ self.new.values) }
        ensures space { OnOk result (length self.new.values < self.new.room) }
        ensures empty { OnErr result (self.old.values ≡ []) }
        ensures fault { IfErr result (λ e. e ≡ Form Unreadable) }
        ensures room { self.new.room ≡ self.old.room }
    {
        if self.count == 0 {
            return Err(ScriptFault::Form(FormFault::Unreadable));
        }
        self.count -= 1;
        Ok(self.frames[self.count])
    }

    // The value of a stack that holds one.
    #[tactic(auto, using(crate::proofs::Stacking::length_held, crate::proofs::Stacking::held_none, crate::proofs::Stacking::held_last, crate::proofs::Stacking::held_push, crate::proofs::Stacking::room, crate::proofs::Stacking::some_under))]
    pub(crate) fn only(mut self) -> Result<Frame, ScriptFault>
        ensures { value_of result ≡ only self.entry.values }
    {
        let value = self.pop()?;
        if self.count == 0 {
            Ok(value)
        } else {
            Err(ScriptFault::Form(FormFault::Unreadable))
        }
    }
}
