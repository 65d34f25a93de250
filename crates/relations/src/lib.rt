// Open algebras: a generator count, a coefficient ring, a monomial order, and the relations declared so far.
#![tactic(auto)]

pub mod count;
pub mod fault;
pub mod open;
mod pair;
pub mod presentation;
pub mod row;
