// Closed algebras: overlaps, the decision whether the standard words are a basis, and calculations.
#![tactic(auto)]

pub mod close;
pub mod closed;
pub mod fault;
mod overlap;
mod scan;
mod search;
mod triple;
pub mod verdict;
