// The run: terms are loaded into the kept list, and rewritten at leftmost inversions until only standard words are left.
#![tactic(auto)]

pub mod calls;
mod done;
pub mod engine;
pub mod entry;
pub mod fault;
mod inversion;
pub mod lent;
pub mod load;
pub mod relation;
pub mod rules;
pub mod source;
mod step;
pub mod substitute;
