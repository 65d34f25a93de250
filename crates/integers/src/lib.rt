// Integers as coefficients: −2,147,483,647 to 2,147,483,647, the code 2a for a ≥ 0 and −2a − 1 for a < 0, written in decimal.
#![tactic(auto)]

pub mod integers;
