// Residues modulo m as coefficients: the codes are 0 to m − 1, written in decimal.
#![tactic(auto)]

pub mod residues;
