// One type for every coefficient ring, and one for every monomial order.
#![tactic(auto)]

pub mod order;
pub mod ring;
