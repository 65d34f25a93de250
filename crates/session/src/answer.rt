// What a line is answered with that is not refused.
ghost use Rattle.std.specs.Prelude.{◌≡◌, ℕ, ◌++◌, OnOk};
ghost use Rattle.session.specs.Answers.{answer_of};
ghost use Rattle.answers.specs.Answers.{answer_bytes};

use answers::list::push_list;
use answers::text::{Report, push_printed};
use choices::ring::AnyRing;
use evaluation::frame::Frame;
use std::alloc::AllocError;

#[derive(Clone, Copy)]
pub enum Answer {
    Reported(Report),
    // the terms, and the ring that writes their coefficients
    Listed(AnyRing, Frame),
}

impl Answer {
    // Appends the bytes of the answer.
    pub fn push(&self, out: &mut Vec<u8>) -> Result<(), AllocError>
        ensures { OnOk result ((number : ℕ) → out.new.items ≡ out.old.items ++ answer_bytes number (answer_of self.now)) }
    {
        match self {
            Answer::Reported(report) => push_printed(out, report),
            Answer::Listed(ring, frame) => push_list(out, ring, frame.terms()),
        }
    }
}
