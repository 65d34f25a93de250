// Coefficient rings by codes: the trait that every ring implements, what an implementation means, and numerals for reading and writing.
#![tactic(auto)]

pub mod fault;
pub mod numeral;
pub mod ring;
pub mod round_trip;
