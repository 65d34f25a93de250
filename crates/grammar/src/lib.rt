// The forms of a script: what a line may hold, how it is written, and its reader.
#![tactic(auto)]

mod bytes;
mod expression;
pub mod fault;
pub mod forms;
pub mod laws;
pub mod line;
pub mod piece;
pub mod reader;
mod reading;
mod terms;
