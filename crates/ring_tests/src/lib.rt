// Tests of the coefficient rings: their limits, and every text of one to three bytes read in a second way.
#![tactic(auto)]

#[cfg(test)]
mod limits;
#[cfg(test)]
mod texts;
