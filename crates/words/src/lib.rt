// Words, terms, and how words compare.
#![tactic(auto)]

pub mod measured;
pub mod row;
pub mod term;
pub mod word;
