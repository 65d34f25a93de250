// The memory that a session calculates in.
ghost use Rattle.std.specs.Prelude.{◌≡◌, [], map, replicate};
ghost use Rattle.kept.specs.Terms.{blanks};
ghost use Rattle.evaluation.specs.Frames.{frame_terms};

use evaluation::frame::Frame;
use words::term::Term;

// How many places work memory has, how many a result, and how many values a stack: one more than brackets may nest deep.
pub const WORK_TERMS: usize = 512;

pub const RESULT_TERMS: usize = 64;

pub const STACK_FRAMES: usize = 16;

#[derive(Drop)]
pub struct Memory {
    pub(crate) work: [Term; WORK_TERMS],
    pub(crate) out: [Term; RESULT_TERMS],
    pub(crate) stack: [Frame; STACK_FRAMES],
}

impl Memory {
    // Every place is blank, and no frame holds a term.
    pub fn blank() -> Memory
        ensures work { result.work ≡ blanks 512 }
        ensures out { result.out ≡ blanks 64 }
        ensures stack { map frame_terms result.stack ≡ replicate 16 [] }
    {
        Memory {
            work: [Term::blank(); WORK_TERMS],
            out: [Term::blank(); RESULT_TERMS],
            stack: [Frame::blank(); STACK_FRAMES],
        }
    }
}
