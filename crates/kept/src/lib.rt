// The kept list: terms whose words strictly fall and whose coefficients are not zero, at the end of a lent memory.
#![tactic(auto)]

pub mod edits;
pub mod fault;
pub mod insert;
pub mod list;
pub mod search;
