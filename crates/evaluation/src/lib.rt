// Working out the pieces of a script's line: its coefficients, expressions and tails.
#![tactic(auto)]

pub mod check;
pub mod evaluate;
pub mod frame;
mod stack;
pub mod tail;
mod workbench;
