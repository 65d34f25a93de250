// What a line of a script is answered with, and how answers are written.
#![tactic(auto)]

pub mod examples;
pub mod failure;
pub mod fault;
pub mod list;
pub mod text;
