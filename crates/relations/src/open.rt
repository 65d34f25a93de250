// Open algebras.
use crate::presentation::Presentation;
use coefficients::ring::Ring;
use orders::order::MonomialOrder;

// A presentation that relations can be declared in, and which pairs were declared. The marks lie beside the table of relations, pair by pair:
// a closed algebra goes on with a plain table, and needs no marks.
#[derive(Drop)]
pub struct Open<R: Ring, O: MonomialOrder> {
    presentation: Presentation<R, O>,
    declared: [bool; 64],
}

mod methods;
