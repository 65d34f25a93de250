// Polynomials in q over the field of two elements as coefficients: bit k of a code is the coefficient of q^k, written in binary, the highest power first.
#![tactic(auto)]

pub mod qpolynomials;
