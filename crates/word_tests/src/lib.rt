// Tests of words and orders: tables of rows, growth and weights, and all pairs of short words compared in a second way.
#![tactic(auto)]

#[cfg(test)]
mod pairs;
#[cfg(test)]
mod rows;
#[cfg(test)]
mod weights;
