// A session: answers a script line by line.
#![tactic(auto)]

pub mod answer;
mod calculating;
mod declaring;
pub mod memory;
mod opening;
pub mod script;
pub mod state;
