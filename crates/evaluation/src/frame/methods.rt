// How frames are made and read.
ghost use Rattle.std.specs.Prelude.{◌≡◌, ◌≤◌, [], take};
ghost use Rattle.evaluation.specs.Frames.{frame_terms};

use crate::frame::{Frame, VALUE_TERMS};
use words::term::Term;

impl Frame {
    // No terms.
    #[tactic(auto, unfolding(crate::specs::Frames::frame_terms))]
    pub fn blank() -> Frame
        ensures { frame_terms result ≡ [] }
    {
        let terms = [Term::blank(); VALUE_TERMS];
        Frame { terms, count: 0 }
    }

    // The first `count` terms of a result memory.
    #[tactic(auto, unfolding(crate::specs::Frames::frame_terms))]
    pub(crate) fn holding(memory: &[Term; VALUE_TERMS], count: usize) -> Frame
        requires { count ≤ 64 }
        ensures { frame_terms result ≡ take count memory.now }
    {
        let terms = *memory;
        Frame { terms, count }
    }

    #[tactic(auto, unfolding(crate::specs::Frames::frame_terms))]
    pub fn terms(&self) -> &[Term]
        ensures { result.now ≡ frame_terms self.now }
    {
        &self.terms[..self.count]
    }
}
