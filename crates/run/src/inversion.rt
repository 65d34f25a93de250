// Two neighbours in the word of a term.
ghost use Rattle.std.specs.Prelude.{◌+◌, ◌≤◌, length};
ghost use Rattle.orders.specs.Letters.{letters, row_places};

use words::term::Term;

// The letters of t at k and k + 1.
#[derive(Clone, Copy)]
pub(crate) struct Inversion<'a> {
    t: &'a Term,
    k: usize,
    ghost inside: { k + 2 ≤ length (letters t.now.row) },
    ghost short: { length (letters t.now.row) ≤ row_places },
}

mod methods;
