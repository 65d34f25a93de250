// What a run goes by.
use crate::relation::Table;

// A ring, an order, and the relation of each pair of letters.
#[derive(Drop)]
pub struct Rules<R, O> {
    pub ring: R,
    pub order: O,
    pub table: Table,
}
