// Images of words, and orders on images: lex and weighted degree.
#![tactic(auto)]

pub mod degree;
pub mod image;
pub mod letter;
pub mod order;
pub mod weight;
