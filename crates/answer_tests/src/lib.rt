// Tests of answers: that there is memory for them shows only in a run.
#![tactic(auto)]

#[cfg(test)]
mod printed;
